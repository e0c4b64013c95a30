// Nodes without a scheme.
ghost use Rattle.std.specs.Prelude.{◌≡◌, ◌≤◌, length};
ghost use Rattle.column.specs.Columns.{Sound, seen, values};
ghost use Rattle.column.specs.Kinds.{number_of, width};
ghost use Rattle.emit.specs.Emitted.{Emitted};
ghost use Rattle.node.specs.Nodes.{OneValue, whole, plain_node, constant_node, blank_node};
ghost use Rattle.node.specs.Payloads.{flag_by};

use crate::nodes::{Written, write_head};
use column::cleaned::Cleaned;
use column::views::View;
use constant::first_value;
use node::extent::Extent;
use node::heads::{HEAD_SIZE, Head};
use node::payloads::{write_constant, write_plain};

// The forms, as heads store them.
pub const PLAIN: u8 = 0;

pub const CONSTANT: u8 = 1;

pub const BLANK: u8 = 2;

// Nothing stands below a node without a scheme.
const NOTHING: Written = Written { whole: 0, nodes: 0 };

// The head of a form that has cells at the width, and a mask where there is a blank.
fn masked_head(form: u8, extent: Extent) -> Head
    ensures { result ≡ record { form = form; kind = number_of extent.kind; cell_bits = width (number_of extent.kind); flag = flag_by extent.has_blank; rows = extent.rows } }
{
    Head {
        form,
        kind: u8::from(extent.kind),
        cell_bits: extent.kind.width() as u8,
        flag: u8::from(extent.has_blank),
        rows: extent.rows as u32,
    }
}

pub fn emit_plain(array: Cleaned<'_>, out: &mut [u8]) -> Written
    requires { whole (plain_node (seen array.view)) ≤ length out.old }
    ensures { Emitted (plain_node (seen array.entry.view)) result out.old out.new }
{
    let extent = Extent::of(array.view);
    write_plain(array, &mut out[HEAD_SIZE..]);
    let head = masked_head(PLAIN, extent);
    write_head(head, extent.plain_len(), NOTHING, out)
}

pub fn emit_constant(array: Cleaned<'_>, out: &mut [u8]) -> Written
    requires one { OneValue (values (seen array.view)) }
    requires room { whole (constant_node (seen array.view)) ≤ length out.old }
    ensures { Emitted (constant_node (seen array.entry.view)) result out.old out.new }
{
    let extent = Extent::of(array.view);
    let Some(value) = first_value(array.view) else {
        unreachable!()
    };
    write_constant(array, value, &mut out[HEAD_SIZE..]);
    let head = masked_head(CONSTANT, extent);
    write_head(head, extent.constant_len(), NOTHING, out)
}

pub fn emit_blank(view: View<'_>, out: &mut [u8]) -> Written
    requires sound { Sound view }
    requires room { whole (blank_node (seen view)) ≤ length out.old }
    ensures { Emitted (blank_node (seen view.entry)) result out.old out.new }
{
    let head = Head {
        form: BLANK,
        kind: u8::from(view.kind),
        cell_bits: 0,
        flag: 0,
        rows: view.rows() as u32,
    };
    write_head(head, 0, NOTHING, out)
}
