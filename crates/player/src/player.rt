// A design that is played, tick by tick.
ghost use Rattle.std.specs.Prelude.{◌≡◌, map, length, None, vec_items, MatchResult};
ghost use Rattle.design.specs.Numbers.{soundness_refusal};
ghost use Rattle.design.specs.Encodings.{design_of};
ghost use Rattle.player.specs.declared.fault.Fault.TheVariants.{Memory};
ghost use Rattle.player.specs.Players.{played, held};
ghost use Rattle.player.specs.Plays.{Holds, Ticks, Plays, Refuses};

use crate::fault::Fault;
use crate::nodes::Tick;
use crate::words;
use design::analysis::Analysis;
use design::encoded::Encoded;
use design::soundness::check;
use std::alloc::Global;

// A design, and the words of its registers before the next tick.
#[derive(Drop)]
pub struct Player<'a> {
    heap: Global,
    analysis: Analysis<'a>,
    words: Vec<u64>,
}

impl<'a> Player<'a> {
    // A sound design before its first tick.
    pub fn new(heap: Global, design: Encoded<'a>) -> Result<Player<'a>, Fault>
        ensures { MatchResult result
            (λ player. (soundness_refusal (design_of design.entry) ≡ None)
            × (played player ≡ design_of design.entry)
            × Holds (design_of design.entry) (design_of design.entry).initial (held player))
            (λ fault. Refuses (design_of design.entry) fault) }
    {
        check(design)?;
        let words = words::initial(heap, design)?;
        Ok(Player {
            heap,
            analysis: Analysis::new(design),
            words,
        })
    }

    // Plays one tick with these numbers for the inputs, and gives those of the outputs. Without memory, nothing changes.
    pub fn tick(&mut self, inputs: &[u64]) -> Result<Vec<u64>, Fault>
        ensures same { played self.new ≡ played self.old }
        ensures cases { MatchResult result
            (λ shown. soundness_refusal (played self.old) ≡ None →
            Ticks (played self.old) inputs.now (held self.old) (held self.new) shown.items)
            (λ fault. (fault ≡ Memory) × (held self.new ≡ held self.old)) }
    {
        let known = Tick {
            analysis: &self.analysis,
            inputs,
            registers: self.words.as_slice(),
        }
        .table();
        let shown = words::shown(self.heap, self.analysis.design, &known)?;
        words::advance(self.analysis.design, &known, self.words.as_mut_slice());
        Ok(shown)
    }

    // Plays a stream from the first tick on.
    pub(crate) fn run(&mut self, stream: &[Vec<u64>]) -> Result<Vec<Vec<u64>>, Fault>
        ensures { MatchResult result
            (λ shown. soundness_refusal (played self.old) ≡ None →
            Holds (played self.old) (played self.old).initial (held self.old) →
            Plays (played self.old) (map vec_items stream.now) (length stream.now) (map vec_items shown.items))
            (λ fault. fault ≡ Memory) }
    {
        let mut shown = Vec::new(self.heap);
        for inputs in stream {
            shown.push(self.tick(inputs.as_slice())?)?;
        }
        Ok(shown)
    }
}
