ghost use Rattle.std.specs.Prelude.{◌≡◌, IfOk, IfSome};
ghost use Rattle.ob_text.specs.Held.{IsReadable};
ghost use Rattle.oberon_module.specs.Reading.{IsRead};
ghost use Rattle.worker_pool.specs.Jobs.{parts_of, plain_check};
ghost use Rattle.worker_pool.specs.Outcomes.{IsCheckOf};

use indexmap::IndexMap;
use ob_text::{Held, Name, NoMemory};
use oberon_module::{Checked, Reading, check_module, check_read};
use oberon_types::View;
use std::alloc::Global;
use std::marker::Model;
use std::sync::Arc;

/// All that the check of one module takes. A text that is held is a document, and what was read is read of it, by what the
/// type keeps.
pub struct Check {
    held: Arc<Held>,
    /// What was read of it before; where there is none it is read as it is checked.
    reading: Option<Arc<Reading>>,
    stem: Name,
    views: IndexMap<Name, View>,
}

impl Drop for Check {
    fn drop(self) {
        let Self {
            held: _,
            reading: _,
            stem: _,
            views: _,
        } = self;
    }
}

impl Model for Check {
    ghost use Rattle.worker_pool.specs.Jobs.{CheckParts, IsWhole, parts_of};
    ghost use Rattle.std.specs.Coded.{codes};
    ghost use Rattle.oberon_types.specs.contracts.entity.View as shown;

    ghost Value = { CheckParts };

    ghost coded = { Prim.hlevel (codes, shown.the_row.coded) };

    ghost view = { λ c. parts_of c.held.value c.stem c.views.entries };

    ghost invariant = { λ c. IsWhole c.held.value c.reading };
}

impl Check {
    /// The check of what is held at a document's path, whose stem is `stem`. A name without a view is no module. Takes no
    /// memory.
    pub fn new(
        held: Arc<Held>,
        reading: Option<Arc<Reading>>,
        stem: Name,
        views: IndexMap<Name, View>,
    ) -> Check
        requires readable { IsReadable held.value }
        requires read { IfSome reading (λ r. IsRead held.value r.value) }
        ensures { result ≡ parts_of held.value stem views.entries }
    {
        Check {
            held,
            reading,
            stem,
            views,
        }
    }

    /// What is held at the document's path.
    pub fn held(&self) -> &Held
        ensures held { result.now ≡ self.now.held }
        ensures readable { IsReadable self.now.held }
    {
        &self.held
    }

    /// The stem of the document's path.
    pub fn stem(&self) -> &Name
        ensures { result.now ≡ self.now.stem }
    {
        &self.stem
    }

    /// What the imports show, by their names.
    pub fn views(&self) -> &IndexMap<Name, View>
        ensures { result.now.entries ≡ self.now.views }
    {
        &self.views
    }

    /// Gives back what the check was of. Takes no memory.
    pub fn into_parts(self) -> (Arc<Held>, Name, IndexMap<Name, View>)
        ensures parts { self ≡ parts_of result.0.value result.1 result.2.entries }
        ensures readable { IsReadable result.0.value }
    {
        let Check {
            held,
            reading: _,
            stem,
            views,
        } = self;
        (held, stem, views)
    }

    /// Checks the module.
    pub fn run(&self, alloc: Global) -> Result<Checked, NoMemory>
        ensures { IfOk result (IsCheckOf (plain_check self.now)) }
    {
        match &self.reading {
            Some(reading) => check_read(alloc, &self.stem, &self.held, reading, &self.views),
            None => check_module(alloc, &self.stem, &self.held, &self.views),
        }
    }
}
