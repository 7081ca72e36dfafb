// A design with the summaries of all its nodes.
ghost use Rattle.std.specs.Prelude.{◌≡◌, ◌<◌, true, length};
ghost use Rattle.design.specs.Designs.{well_formed, width};
ghost use Rattle.design.specs.Numbers.{nodes_of, node_expr};
ghost use Rattle.design.specs.Summaries.{Summarizes, Known};
ghost use Rattle.design.specs.Encodings.{list_of, design_of};

use crate::encoded::Encoded;
use crate::lookup::at;
use crate::pass;
use crate::summary::Summary;

// An array with a place for each node that there may be, since there is no heap here.
#[derive(Drop)]
pub struct Analysis<'a> {
    pub design: Encoded<'a>,
    known: [Summary; 1024],
    ghost long: { length known ≡ 1024 },
    ghost summarized: { Known (design_of design) (node_expr (list_of design)) (nodes_of (list_of design)) known },
}

impl<'a> Analysis<'a> {
    // Goes over the nodes once, in their order.
    pub fn new(design: Encoded<'a>) -> Analysis<'a>
        ensures { list_of result.design ≡ list_of design.entry }
    {
        Analysis {
            design,
            known: pass::pass(design),
        }
    }

    pub(crate) fn summary(&self, n: u16) -> Summary
        ensures { n < nodes_of (list_of self.now.design) →
            Summarizes (design_of self.now.design) (node_expr (list_of self.now.design) n) result }
    {
        at(&self.known, n as usize)
    }

    // The width of a node that is well-formed.
    pub fn width(&self, n: u16) -> u16
        ensures { n < nodes_of (list_of self.now.design) →
            well_formed (design_of self.now.design) (node_expr (list_of self.now.design) n) ≡ true →
            result ≡ width (design_of self.now.design) (node_expr (list_of self.now.design) n) }
    {
        self.summary(n).width
    }
}
