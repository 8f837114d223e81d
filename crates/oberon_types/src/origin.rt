ghost use Rattle.std.specs.Prelude.{◌≡◌};
ghost use Rattle.std.specs.Cmp.Lexicographic.{pointwise};
ghost use Rattle.oberon_types.specs.Types.{same_origin, same_step};

use ob_text::{Items, Name};

/// One step from a declared type down to a part of it.
#[derive(Debug, Drop)]
pub enum Step {
    Element,
    Field(Name),
}

/// Where a record type is declared.
pub struct Origin {
    pub module: Name,
    pub procedure: Option<Name>,
    pub name: Name,
    pub path: Items<Step>,
}

impl Drop for Origin {
    fn drop(self) {
        let Self {
            module: _,
            procedure: _,
            name: _,
            path: _,
        } = self;
    }
}

impl Origin {
    /// Whether two origins are equal. Takes no memory.
    pub fn same(&self, other: &Origin) -> bool
        ensures { result ≡ same_origin self.now other.now }
    {
        self.module == other.module
            && self.procedure == other.procedure
            && self.name == other.name
            && same_path(self.path.as_slice(), other.path.as_slice())
    }
}

fn same_step(step: &Step, other: &Step) -> bool
    ensures { result ≡ same_step step.now other.now }
{
    match (step, other) {
        (Step::Element, Step::Element) => true,
        (Step::Field(name), Step::Field(other)) => name == other,
        _ => false,
    }
}

#[cycle(path)]
fn same_path(path: &[Step], other: &[Step]) -> bool
    ensures { result ≡ pointwise same_step path.now other.now }
{
    match (path.split_first(), other.split_first()) {
        (None, None) => true,
        (Some((step, path)), Some((other, rest))) => same_step(step, other)
            && same_path(path, rest),
        _ => false,
    }
}
