// Nodes for which no scheme competes: a form and a size.
ghost use Rattle.std.specs.Prelude.{◌≡◌, ◌∷◌, ◌≤◌, length, drop, option_map};
ghost use Rattle.cascade.specs.Settled.{settled};
ghost use Rattle.cascade.specs.Sizes.{leaf_of, lighter_leaf};
ghost use Rattle.column.specs.Columns.{seen};
ghost use Rattle.node.specs.Nodes.{plain_node};

use crate::size::Size;
use column::cleaned::Cleaned;
use constant::{first_value, is_constant_for_compression};
use node::extent::Extent;

// The numbers that heads store of the forms without a scheme.
const PLAIN: u8 = 0;

const CONSTANT: u8 = 1;

const BLANK: u8 = 2;

#[derive(Clone, Copy)]
pub struct Leaf {
    pub form: u8,
    pub size: Size,
}

impl Leaf {
    // The column's plain node.
    pub fn plain(array: Cleaned<'_>) -> Leaf
        ensures { result ≡ leaf_of (plain_node (seen array.entry.view)) }
    {
        Leaf {
            form: PLAIN,
            size: Size::leaf(Extent::of(array.view).plain_len()),
        }
    }

    // No row: plain. No value: blank. One value, outside a sample: constant if that is lighter than plain. Else the schemes compete.
    pub fn settled(array: Cleaned<'_>, is_sample: bool) -> Option<Leaf>
        ensures { result ≡ option_map leaf_of (settled is_sample (seen array.entry.view)) }
    {
        let plain = Leaf::plain(array);
        if array.view.rows() == 0 {
            return Some(plain);
        }
        if first_value(array.view).is_none() {
            return Some(Leaf {
                form: BLANK,
                size: Size::leaf(0),
            });
        }
        if is_sample || !is_constant_for_compression(array.view) {
            return None;
        }
        let constant = Leaf {
            form: CONSTANT,
            size: Size::leaf(Extent::of(array.view).constant_len()),
        };
        Some(constant.lighter(plain))
    }

    // This one if it is lighter than the other.
    fn lighter(self, other: Leaf) -> Leaf
        ensures { result ≡ lighter_leaf self other }
    {
        if self.size.weight < other.size.weight {
            self
        } else {
            other
        }
    }

    // Notes the form at the front of the plan.
    pub fn noted(self, plan: &mut [u64]) -> Size
        requires room { 1 ≤ length plan.old }
        ensures size { result ≡ self.size }
        ensures plan { plan.new ≡ self.form ∷ drop 1 plan.old }
    {
        plan[0] = u64::from(self.form);
        self.size
    }
}
