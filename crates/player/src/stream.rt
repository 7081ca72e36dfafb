// Streams of inputs.
ghost use Rattle.std.specs.Prelude.{◌≡◌, map, length, None, vec_items, MatchResult};
ghost use Rattle.design.specs.Numbers.{soundness_refusal};
ghost use Rattle.design.specs.Encodings.{design_of};
ghost use Rattle.player.specs.Plays.{Plays, Refuses};

use crate::fault::Fault;
use crate::player::Player;
use design::encoded::Encoded;
use std::alloc::Global;

// What a design shows to a stream that has for each tick the numbers of its inputs: for each tick the numbers of its outputs.
pub fn play(heap: Global, design: Encoded<'_>, stream: &[Vec<u64>]) -> Result<Vec<Vec<u64>>, Fault>
    ensures { MatchResult result
        (λ shown. (soundness_refusal (design_of design.entry) ≡ None)
        × Plays (design_of design.entry) (map vec_items stream.now) (length stream.now) (map vec_items shown.items))
        (λ fault. Refuses (design_of design.entry) fault) }
{
    let mut player = Player::new(heap, design)?;
    player.run(stream)
}
