ghost use Rattle.std.specs.Prelude.{◌≡◌, ◌<◌, ◌^◌, [], length, replicate, All, IfOk, OnOk};
ghost use Rattle.build_plan.specs.Rows.{AreWithin};
ghost use Rattle.build_plan.specs.Lists.{lists, lists_of};
ghost use Rattle.build_plan.specs.Links.{AreTurned, IsAdded};

use ob_text::NoMemory;
use std::alloc::Global;
use std::marker::Model;

/// Who imports whom, both ways.
#[derive(Drop)]
pub(crate) struct Links {
    imports: Vec<Vec<u32>>,
    importers: Vec<Vec<u32>>,
}

impl Model for Links {
    ghost use Rattle.std.specs.Prelude.{ℕ, List};
    ghost use Rattle.build_plan.specs.Lists.{lists};
    ghost use Rattle.build_plan.specs.Links.{AreLinks};

    ghost Value = { List (List ℕ) };

    ghost view = { λ links. lists links.imports };

    ghost invariant = { λ links. AreLinks (lists links.imports) (lists links.importers) };
}

impl Links {
    /// The links of places by their imports, in time that is linear in places and imports.
    pub(crate) fn new(alloc: Global, imports: Vec<Vec<u32>>) -> Result<Links, NoMemory>
        requires within { AreWithin (lists imports) }
        requires few { length imports.items < 2 ^ 32 }
        ensures { IfOk result (λ links. links ≡ lists imports) }
    {
        let mut importers = empty_rows(alloc, imports.len())?;
        for place in 0..imports.len() {
            add_importer(&mut importers, imports[place].as_slice(), place as u32)?;
        }
        Ok(Links { imports, importers })
    }

    pub(crate) fn len(&self) -> usize
        ensures len { result ≡ length self.now }
        ensures few { result < 2 ^ 32 }
    {
        self.imports.len()
    }

    /// For each place, the places that it imports.
    pub(crate) fn imports(&self) -> &[Vec<u32>]
        ensures rows { lists_of result.now ≡ self.now }
        ensures within { AreWithin self.now }
    {
        self.imports.as_slice()
    }

    /// For each place, the places that import it, as often as they do.
    pub(crate) fn importers(&self) -> &[Vec<u32>]
        ensures turned { AreTurned self.now (lists_of result.now) }
        ensures within { AreWithin (lists_of result.now) }
    {
        self.importers.as_slice()
    }
}

fn empty_rows(alloc: Global, count: usize) -> Result<Vec<Vec<u32>>, NoMemory>
    ensures { IfOk result (λ rows. lists rows ≡ replicate count []) }
{
    let mut rows = Vec::new(alloc);
    for _ in 0..count {
        rows.push(Vec::new(alloc))?;
    }
    Ok(rows)
}

fn add_importer(
    importers: &mut Vec<Vec<u32>>,
    imports: &[u32],
    importer: u32,
) -> Result<(), NoMemory>
    requires { All (λ place. place < length importers.old.items) imports.now }
    ensures { OnOk result (IsAdded (lists importers.old) (lists importers.new) importer imports.now) }
{
    for import in imports {
        importers[*import as usize].push(importer)?;
    }
    Ok(())
}
