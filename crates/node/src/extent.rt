// How far a column extends: what the lengths of payloads depend on.
ghost use Rattle.std.specs.Prelude.{◌≡◌, ◌+◌, ◌<◌, ◌≤◌, List, length};
ghost use Rattle.column.specs.Columns.{Row, Column, Sound, has_blank, seen, values};
ghost use Rattle.column.specs.Kinds.{number_of, width};
ghost use Rattle.node.specs.Payloads.{mask, mask_len, plain_payload, plain_len, constant_payload, constant_len};
ghost use Rattle.packing.specs.Packing.{packed_len};

use column::kinds::Kind;
use column::views::View;
use packing::packed_len;

// Kind, row count, and whether a row is blank; no more rows than a column may have.
#[derive(Clone, Copy)]
pub struct Extent {
    pub kind: Kind,
    pub rows: usize,
    pub has_blank: bool,
    ghost few: { rows ≤ 131072 },
}

impl Extent {
    pub fn of(view: View<'_>) -> Extent
        requires sound { Sound view }
        ensures kind { result.kind ≡ view.entry.kind }
        ensures rows { result.rows ≡ length (seen view.entry).rows }
        ensures has_blank { result.has_blank ≡ has_blank (seen view.entry).rows }
    {
        Extent {
            kind: view.kind,
            rows: view.rows(),
            has_blank: view.has_blank(),
        }
    }

    pub fn mask_len(self) -> usize
        ensures value { result ≡ mask_len self.has_blank self.rows }
        ensures meant { (rs : List Row) → length rs ≡ self.rows → has_blank rs ≡ self.has_blank → result ≡ length (mask rs) }
    {
        if !self.has_blank {
            return 0;
        }
        packed_len(1, self.rows)
    }

    pub fn plain_len(self) -> usize
        ensures value { result ≡ plain_len (number_of self.kind) self.rows self.has_blank }
        ensures meant { (c : Column) → c.kind ≡ number_of self.kind → length c.rows ≡ self.rows → has_blank c.rows ≡ self.has_blank → result ≡ length (plain_payload c) }
    {
        self.masked_len(self.rows)
    }

    pub fn constant_len(self) -> usize
        ensures value { result ≡ constant_len (number_of self.kind) self.rows self.has_blank }
        ensures meant { (c : Column) → c.kind ≡ number_of self.kind → length c.rows ≡ self.rows → has_blank c.rows ≡ self.has_blank → 0 < length (values c) → result ≡ length (constant_payload c) }
    {
        self.masked_len(1)
    }

    // Bytes of that many cells at the width, and of the mask.
    fn masked_len(self, cells: usize) -> usize
        requires few { cells ≤ 131072 }
        ensures { result ≡ packed_len (width (number_of self.kind)) cells + mask_len self.has_blank self.rows }
    {
        packed_len(self.kind.width(), cells) + self.mask_len()
    }
}
