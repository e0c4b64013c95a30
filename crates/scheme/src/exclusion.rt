// Rules that keep a scheme out of parts of a tree.
ghost use Rattle.std.specs.Prelude.{◌≡◌, ℕ};
ghost use Rattle.scheme.specs.Rules.{children_seen, contains as contains_child};

// Which children a rule speaks of.
#[derive(Clone, Copy)]
pub enum ChildSelection<'a> {
    All,
    One(usize),
    Many(&'a [usize]),
}

// The two rules are types apart, as in the ported crate, so that neither can stand in the other's table.

// Push rule: of the scheme that declares it, no descendant below these children may be `excluded`.
#[derive(Clone, Copy)]
pub struct DescendantExclusion<'a> {
    pub excluded: u8,
    pub children: ChildSelection<'a>,
}

// Pull rule: the scheme that declares it may not stand below these children of `ancestor`.
#[derive(Clone, Copy)]
pub struct AncestorExclusion<'a> {
    pub ancestor: u8,
    pub children: ChildSelection<'a>,
}

impl ChildSelection<'_> {
    pub fn contains(&self, child: usize) -> bool
        ensures { result ≡ contains_child (children_seen self.now) child }
    {
        match self {
            ChildSelection::All => true,
            ChildSelection::One(i) => *i == child,
            ChildSelection::Many(is) => is.contains(&child),
        }
    }
}
