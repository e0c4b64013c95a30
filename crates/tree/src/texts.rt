// A node of a tree as a row of text: level, form, kind, rows, payload length and whole length.
ghost use Rattle.std.specs.Prelude.{Some};
ghost use Rattle.tree.specs.Texts.{entry_text, form_text, kind_text};

use crate::Entry;
use column::kinds::Kind;
use std::fmt;

// A form as a head stores it, printed by its name; a scheme without one by its id.
#[derive(Clone, Copy)]
struct Form {
    number: u8,
}

impl fmt::Display for Form {
    ghost output = { λ form. Some (form_text form.number) };

    fn fmt<W: fmt::Write>(&self, f: &mut fmt::Formatter<W>) -> fmt::Result {
        let number = self.number;
        match number {
            0 => write!(f, "plain"),
            1 => write!(f, "constant"),
            2 => write!(f, "blank"),
            16 => write!(f, "dict"),
            17 => write!(f, "runs"),
            18 => write!(f, "frame"),
            19 => write!(f, "stern"),
            _ => write!(f, "{number}"),
        }
    }
}

// A kind as a head stores it, printed by its name; a number that no kind has as it is.
#[derive(Clone, Copy)]
struct StoredKind {
    number: u8,
}

impl fmt::Display for StoredKind {
    ghost output = { λ kind. Some (kind_text kind.number) };

    fn fmt<W: fmt::Write>(&self, f: &mut fmt::Formatter<W>) -> fmt::Result {
        let number = self.number;
        match Kind::try_from(number) {
            Ok(kind) => write!(f, "{}", kind.name()),
            Err(_) => write!(f, "{number}"),
        }
    }
}

impl fmt::Display for Entry {
    ghost output = { λ entry. Some (entry_text entry) };

    fn fmt<W: fmt::Write>(&self, f: &mut fmt::Formatter<W>) -> fmt::Result {
        let head = self.header.head;
        let level = self.level;
        let form = Form { number: head.form };
        let kind = StoredKind { number: head.kind };
        let rows = head.rows;
        let payload = self.header.payload;
        let whole = self.header.whole;
        write!(f, "{level},{form},{kind},{rows},{payload},{whole}")
    }
}
