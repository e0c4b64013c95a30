// How large a tree is.
ghost use Rattle.std.specs.Prelude.{◌≡◌, ◌+◌, ◌<◌, ◌^◌};
ghost use Rattle.levels.specs.Levels.{score_verdict};
ghost use Rattle.node.specs.Nodes.{head_size};
ghost use Rattle.scheme.specs.Scores.{score_of};

use node::heads::HEAD_SIZE;
use scheme::estimate::{EstimateScore, EstimateVerdict};

// The weight and the whole length of a node, and how many nodes its tree has.
#[derive(Clone, Copy)]
pub struct Size {
    pub weight: usize,
    pub whole: usize,
    pub nodes: usize,
}

impl Size {
    // Of a node without children.
    pub fn leaf(payload: usize) -> Size
        requires short { payload < 2 ^ 32 }
        ensures { result ≡ record { weight = payload; whole = head_size + payload; nodes = 1 } }
    {
        Size {
            weight: payload,
            whole: HEAD_SIZE + payload,
            nodes: 1,
        }
    }

    // With one more child.
    pub fn over(self, child: Size) -> Size
        requires weight { self.weight + child.weight < 2 ^ 32 }
        requires whole { self.whole + child.whole < 2 ^ 32 }
        requires nodes { self.nodes + child.nodes < 2 ^ 32 }
        ensures { result ≡ record { weight = self.weight + child.weight; whole = self.whole + child.whole; nodes = self.nodes + child.nodes } }
    {
        Size {
            weight: self.weight + child.weight,
            whole: self.whole + child.whole,
            nodes: self.nodes + child.nodes,
        }
    }

    // How well a scheme did whose node of a sample has this size, where plain has that one; a node of 0 bytes never counts.
    pub fn scored(self, plain: Size) -> EstimateVerdict
        ensures { result ≡ score_verdict (score_of plain.weight self.weight) }
    {
        match EstimateScore::from_sample_sizes(plain.weight as u64, self.weight as u64) {
            EstimateScore::FiniteCompression(ratio) => EstimateVerdict::Ratio(ratio),
            EstimateScore::ZeroBytes => EstimateVerdict::Skip,
        }
    }
}
