ghost use Rattle.std.specs.Prelude.{◌≡◌, ◌≢◌, ◌<◌, ◌≤◌, ℕ, length, true, Some, IfOk, IfErr, IfSome, IfNone, All};
ghost use Rattle.std.specs.List.{AllPairs, flat_map};
ghost use Rattle.target_graph.specs.Address.{target_address, document_address};
ghost use Rattle.target_graph.specs.Closures.{AreClosures, lists};
ghost use Rattle.target_graph.specs.Faults.{Accepted, IsRefusal, IsPlainRefusal, IsRepeat, Passed};
ghost use Rattle.target_graph.specs.Kept.{IsSoundListing};
ghost use Rattle.target_graph.specs.Listing.{IsListing, Accepts};
ghost use Rattle.target_graph.specs.Names.{is_name, is_path};
ghost use Rattle.target_graph.specs.Walk.{AreClosed};
ghost use Rattle.target_graph.specs.Workspace.{pairs_of, id_of, path_at, named, with_id, AreValid, IsClosure, IsVisible, Names, IsInverse};
ghost use Rattle.target_graph.specs.Limits.{dependencies_limit, pairs_limit, targets_limit};
ghost use Rattle.ob_text.specs.declared.held.Held.{Held};

use crate::address::{behind, joined, listing, printed};
use crate::closures::closures;
use crate::fault::WorkspaceRefusal;
use crate::listing::index_of;
use crate::pairs::pairs_of;
use crate::reading::{Listing, read_file};
use crate::root::Root;
use crate::stems::{check_stems, first_seen, groups, number};
use crate::target::{Pair, Target};
use crate::walk::{marked, reached};
use bsp_address::Address;
use indexmap::IndexSet;
use ob_text::{Held, Name, NoMemory, Path};
use std::alloc::Global;
use std::marker::Model;

/// What stands between the root and a target's name in the target's id.
const ID_MARK: &[u8] = b"?id=";

/// An accepted workspace file, with the root that its addresses are made of.
pub struct Workspace {
    alloc: Global,
    root: Root,
    targets: Vec<Target>,
    pairs: Vec<Pair>,
    names: IndexSet<Name>,
    stems: IndexSet<Name>,
    groups: Vec<Vec<u32>>,
    closures: Vec<Vec<bool>>,
}

impl Drop for Workspace {
    fn drop(self) {
        let Self {
            alloc: _,
            root: _,
            targets: _,
            pairs: _,
            names: _,
            stems: _,
            groups: _,
            closures: _,
        } = self;
    }
}

impl Model for Workspace {
    ghost use Rattle.target_graph.specs.Workspace.{Space};
    ghost use Rattle.target_graph.specs.Kept.{space, IsKept};

    ghost Value = { Space };

    ghost view = { space };

    ghost invariant = { IsKept };
}

impl Workspace {
    /// Reads a workspace file, `oberon-build.json`.
    pub fn read(alloc: Global, file: &Held, root: Root) -> Result<Workspace, WorkspaceRefusal>
        ensures accepted { IfOk result (Accepted file.now root) }
        ensures refused { IfErr result (IsRefusal file.now) }
        ensures plain { IfErr result IsPlainRefusal }
    {
        match read_file(alloc, file) {
            Ok(listing) => Workspace::of_listing(alloc, root, listing),
            Err(refusal) => Err(refusal),
        }
    }

    /// Reads another workspace file at the same root.
    pub fn reread(&self, file: &Held) -> Result<Workspace, WorkspaceRefusal>
        ensures accepted { IfOk result (Accepted file.now self.now.root) }
        ensures refused { IfErr result (IsRefusal file.now) }
        ensures plain { IfErr result IsPlainRefusal }
    {
        let root = self.root.copy(self.alloc)?;
        Workspace::read(self.alloc, file, root)
    }

    fn of_listing(
        alloc: Global,
        root: Root,
        listing: Listing,
    ) -> Result<Workspace, WorkspaceRefusal>
        requires { IsSoundListing listing }
        ensures { (held : Held) → IsListing held listing → Accepts held root result }
    {
        match closures(alloc, listing.targets.as_slice()) {
            Ok(closures) => Workspace::of_acyclic(alloc, root, listing, closures),
            Err(refusal) => Err(refusal),
        }
    }

    fn of_acyclic(
        alloc: Global,
        root: Root,
        listing: Listing,
        closures: Vec<Vec<bool>>,
    ) -> Result<Workspace, WorkspaceRefusal>
        requires sound { IsSoundListing listing }
        requires closures { AreClosures listing.targets.items (lists closures) }
        ensures { (held : Held) → IsListing held listing → Passed held 7 → Accepts held root
            result }
    {
        let Listing { names, targets } = listing;
        let pairs = pairs_of(alloc, targets.as_slice())?;
        let mut stems = IndexSet::new(alloc);
        let numbers = number(alloc, &mut stems, pairs.as_slice())?;
        let groups = groups(alloc, numbers.as_slice(), stems.len())?;
        match check_stems(
            alloc,
            targets.as_slice(),
            closures.as_slice(),
            pairs.as_slice(),
            numbers.as_slice(),
            groups.as_slice(),
        ) {
            Ok(()) => Ok(Workspace {
                alloc,
                root,
                targets,
                pairs,
                names,
                stems,
                groups,
                closures,
            }),
            Err(refusal) => Err(refusal),
        }
    }

    /// The targets, in the order of the file.
    pub fn targets(&self) -> &[Target]
        ensures targets { result.now ≡ self.now.targets }
        ensures few { length result.now ≤ targets_limit }
        ensures few_modules { length (flat_map (λ target. target.modules) result.now) ≤ pairs_limit }
        ensures few_dependencies { length (flat_map (λ target. target.dependencies) result.now)
            ≤ dependencies_limit }
        // Each dependency is the index of a target.
        ensures closed { AreClosed result.now }
        // Each name is a target's name, and each path is a module's path, as `stem_of` wants it.
        ensures valid { AreValid result.now }
    {
        self.targets.as_slice()
    }

    /// The pairs of a target and one of its modules, in the order of the file.
    pub fn pairs(&self) -> &[Pair]
        ensures pairs { result.now ≡ pairs_of self.now.targets }
        ensures few { length result.now ≤ pairs_limit }
        ensures within { All (λ pair. pair.target < length self.now.targets) result.now }
        // Each path is a module's path, as `stem_of` wants it.
        ensures valid { All (λ pair. is_path pair.path ≡ true) result.now }
        // Two with one address of their documents have different ids of their targets.
        ensures distinct { AllPairs (λ p q. document_address self.now.root p.path
            ≡ document_address self.now.root q.path → id_of self.now p.target
            ≢ id_of self.now q.target) result.now }
        // No target sees two of one stem.
        ensures once { (target pair : ℕ) → ¬ (IsRepeat self.now.targets target pair) }
    {
        self.pairs.as_slice()
    }

    /// The targets to which some lead, in the order of the file: these and all that they depend on.
    pub fn closure(&self, targets: &[u32]) -> Result<Vec<u32>, NoMemory>
        requires { All (λ target. target < length self.now.targets) targets.now }
        ensures closure { IfOk result (λ closure. IsClosure self.now.targets targets.now
            closure.items) }
        ensures within { IfOk result (λ closure. All (λ target. target < length
            self.now.targets) closure.items) }
    {
        let marks = reached(self.alloc, self.targets.as_slice(), targets)?;
        marked(self.alloc, marks.as_slice())
    }

    /// The pair that a name means to the modules of a target. Takes no memory.
    pub fn visible(&self, target: u32, name: &Name) -> Option<u32>
        requires { target < length self.now.targets }
        ensures some { IfSome result (IsVisible self.now.targets target name.now) }
        // No other pair has the name.
        ensures one { IfSome result (λ pair. (other : ℕ) → IsVisible self.now.targets target
            name.now other → other ≡ pair) }
        ensures none { IfNone result ((pair : ℕ) → ¬ (IsVisible self.now.targets target name.now
            pair)) }
    {
        match self.stems.get_index_of(name) {
            Some(number) => first_seen(
                self.closures[target as usize].as_slice(),
                self.pairs.as_slice(),
                self.groups[number].as_slice(),
            ),
            None => None,
        }
    }

    /// The id of a target: the root, `?id=` and the target's name.
    pub fn target_id(&self, target: u32) -> Result<Address, NoMemory>
        requires { target < length self.now.targets }
        ensures { IfOk result (λ id. id ≡ id_of self.now target) }
    {
        self.id_of_name(&self.targets[target as usize].name)
    }

    /// The id of a target that has this name.
    pub fn id_of_name(&self, name: &Name) -> Result<Address, NoMemory>
        requires { is_name name.now ≡ true }
        ensures { IfOk result (λ id. id ≡ target_address self.now.root name.now) }
    {
        let id = joined(self.alloc, self.root.as_slice(), ID_MARK, name.as_slice())?;
        Ok(Address::new(id))
    }

    /// The address of a pair's document: the root and the path.
    pub fn document_of(&self, pair: u32) -> Result<Address, NoMemory>
        requires { pair < length (pairs_of self.now.targets) }
        ensures { IfOk result (λ address. address ≡ document_address self.now.root (path_at
            self.now.targets pair)) }
    {
        self.address_of_path(&self.pairs[pair as usize].path)
    }

    /// The address of a document that has this path.
    pub fn address_of_path(&self, path: &Path) -> Result<Address, NoMemory>
        requires { is_path path.now ≡ true }
        ensures { IfOk result (λ address. address ≡ document_address self.now.root path.now) }
    {
        let address = joined(self.alloc, self.root.as_slice(), b"", path.as_slice())?;
        Ok(Address::new(address))
    }

    /// The target whose id an address is. An address counts as it is spelled, or as `url` prints
    /// it.
    #[tactic(auto, unfolding(crate::specs::Workspace::named))]
    pub fn target_named(&self, uri: &str) -> Result<Option<u32>, NoMemory>
        ensures some { IfOk result (λ found. IfSome found (Names self.now uri.now)) }
        ensures none { IfOk result (λ found. IfNone found ((target : ℕ) → ¬ (Names self.now
            uri.now target))) }
        // The id as it is spelled goes first.
        ensures named { IfOk result (λ found. found ≡ named self.now uri.now) }
    {
        if let Some(target) = self.target_at(uri.as_bytes())? {
            return Ok(Some(target));
        }
        match printed(self.alloc, uri)? {
            Some(text) => self.target_at(text.as_slice()),
            None => Ok(None),
        }
    }

    /// The target whose id is this text.
    fn target_at(&self, text: &[u8]) -> Result<Option<u32>, NoMemory>
        ensures some { IfOk result (λ found. IfSome found (λ target. (target < length
            self.now.targets) × (id_of self.now target ≡ text.now))) }
        ensures none { IfOk result (λ found. IfNone found ((target : ℕ) → target < length
            self.now.targets → id_of self.now target ≢ text.now)) }
        ensures one { IfOk result (λ found. (target : ℕ) → target < length self.now.targets →
            id_of self.now target ≡ text.now → found ≡ Some target) }
        ensures named { IfOk result (λ found. found ≡ with_id self.now text.now) }
    {
        let Some(rest) = behind(text, self.root.as_slice()) else {
            return Ok(None);
        };
        let Some(name) = behind(rest, ID_MARK) else {
            return Ok(None);
        };
        let name = Name::new(self.alloc, name)?;
        Ok(index_of(&self.names, &name))
    }

    /// The targets that list a document themselves, in the order of the file. An address counts as
    /// it is
    /// spelled, or as `url` prints it; one that is no document's has none.
    pub fn inverse(&self, uri: &str) -> Result<Vec<u32>, NoMemory>
        ensures inverse { IfOk result (λ targets. IsInverse self.now uri.now targets.items) }
        ensures few { IfOk result (λ targets. length targets.items ≤ targets_limit) }
    {
        let printed = printed(self.alloc, uri)?;
        let own = behind(uri.as_bytes(), self.root.as_slice());
        match &printed {
            Some(text) => listing(
                self.alloc,
                self.targets.as_slice(),
                own,
                behind(text.as_slice(), self.root.as_slice()),
            ),
            None => listing(self.alloc, self.targets.as_slice(), own, None),
        }
    }
}
