ghost use Rattle.std.specs.Prelude.{◌≡◌, ◌≤◌, ◌++◌, ◌∷◌, [], ℕ, List, IfOk, OnOk, OnErr, IfErr, IfSome, IsSome, Option, Some, None, true, false, MatchOption, bytes_eq};
ghost use Rattle.std.specs.List.{list_any, list_all};
ghost use Rattle.std.specs.Prelude.{cond};
ghost use Rattle.std.specs.HashMap.{get};
ghost use Rattle.outside.specs.Causes.{HasCause};
ghost use Rattle.outside.specs.Cells.{Cell, Sets, AllBut};
ghost use Rattle.std.specs.Prelude.{is_some, option_map, Bool};
ghost use Rattle.std.specs.List.Sorted.{IsSorted};
ghost use Rattle.std.specs.Cmp.Lexicographic.{slice_cmp};
ghost use Rattle.std.specs.Ordering.{nat_cmp};
ghost use Rattle.std.specs.List.{IsDistinct};
ghost use Rattle.std.specs.Prelude.{◌+◌, ◌||◌, length};
ghost use Rattle.publication.specs.Bounds.{Bounded, RemovesWithin, is_within, may_stand_after, removals_in, stays};
ghost use Rattle.publication.specs.Changing.{done, holds, Tells};
ghost use Rattle.publication.specs.Logs.{BringsBytes, LoggedBy, Logged, LogsPut, Removes, Writes, put_of, removed};
ghost use Rattle.publication.specs.OwnNames.{is_own};
ghost use Rattle.publication.specs.Wants.{bytes_of, wants_of, proper, goes, wanted};
ghost use Rattle.publication.specs.Published.{call_of, Knows, Came, BringsFile, BringsProfile, Partly, Placing, Clearing, Sweeps, Interrupted, InterruptedWithin, Holding, one_or_none, Covers, Names, Published, Drops, Dropping, Bringing, MayBring, may_stand_in};
ghost use Rattle.publication.specs.Listings.{IsAbsentUnless, Lists};
ghost use Rattle.std.specs.HashSet.{contains};
ghost use Rattle.std.specs.Prelude.{not, ◌&&◌, if◌then◌else◌};
ghost use Rattle.publication.specs.Troubles.{name_of};
ghost use Rattle.publication.specs.declared.publisher.Known.{Known};

use crate::answer::{Publication, is_within};
use crate::named_profile::{NamedProfile, named};
use crate::own_name::is_own;
use crate::profile::Profile;
use crate::reading::holds;
use crate::trouble::{Call, Trouble, Which, not_removed};
use base::{Bytes, Seq, Text};
use outside::{Shelf, StoreError};
use std::alloc::{AllocError, Global};
use std::collections::{HashMap, HashSet};

/// What is known of a name that may be on the shelf.
#[derive(Drop)]
pub(crate) enum Known {
    Unread,
    /// It holds these bytes.
    Holds(Bytes),
}

/// What is known of the program's own names on a shelf: all those that may be there.
#[derive(Drop)]
pub struct Publisher {
    own: HashMap<Text, Known>,
    /// Names that one publication may remove; any number where there is none.
    most: Option<u64>,
}

/// The name, which does not hold the bytes, gets them, or gives the call that failed.
fn put_other<H: Shelf>(shelf: &mut H, name: &str, bytes: &[u8]) -> Result<Option<Call>, AllocError>
    requires open { IsSome (H.opened shelf.old) }
    requires other { IfSome (H.cell shelf.old name.now)
        (λ content. false ≡ holds bytes.now (Some content)) }
    ensures brings { BringsBytes name.now bytes.now (H.fault_count shelf.old)
        (H.fault_count shelf.new) (H.cell shelf.old) (H.cell shelf.new) (H.changes shelf.old)
        (H.changes shelf.new) result }
    ensures opened { H.opened shelf.new ≡ H.opened shelf.old }
{
    match shelf.put(name, bytes) {
        Ok(()) => Ok(None),
        Err(StoreError::Failed) => Ok(Some(Call::Put)),
        Err(StoreError::Memory) => Err(AllocError),
    }
}

/// The name gets the bytes, or gives the call that failed. One that is known to be absent is not read.
fn bring_name<H: Shelf>(
    shelf: &mut H,
    name: &str,
    bytes: &[u8],
    held: &mut Vec<u8>,
    may_stand: bool,
) -> Result<Option<Call>, AllocError>
    requires open { IsSome (H.opened shelf.old) }
    requires absent { IsAbsentUnless may_stand (H.cell shelf.old name.now) }
    ensures brings { BringsBytes name.now bytes.now (H.fault_count shelf.old)
        (H.fault_count shelf.new) (H.cell shelf.old) (H.cell shelf.new) (H.changes shelf.old)
        (H.changes shelf.new) result }
    ensures opened { H.opened shelf.new ≡ H.opened shelf.old }
{
    match holds(shelf, name, bytes, held, may_stand) {
        Ok(true) => return Ok(None),
        Ok(false) => {}
        Err(StoreError::Failed) => return Ok(Some(Call::Read)),
        Err(StoreError::Memory) => return Err(AllocError),
    }
    put_other(shelf, name, bytes)
}

/// An own name is taken away from the shelf, or the call failed.
fn remove_name<H: Shelf>(shelf: &mut H, name: &str) -> Result<bool, AllocError>
    requires open { IsSome (H.opened shelf.old) }
    ensures came { IfOk result (λ done. Came name.now None done (H.fault_count shelf.old)
        (H.fault_count shelf.new) (H.cell shelf.old) (H.cell shelf.new)) }
    ensures unsettles { OnErr result (AllBut (H.cell shelf.old) name.now (H.cell shelf.new)) }
    ensures later { H.fault_count shelf.old ≤ H.fault_count shelf.new }
    ensures opened { H.opened shelf.new ≡ H.opened shelf.old }
    ensures removals { removals_in (H.changes shelf.new)
        ≤ removals_in (H.changes shelf.old) + 1 }
    ensures log { IfOk result
        (λ gone. H.changes shelf.new ≡ done (H.changes shelf.old) (removed gone name.now)) }
{
    match shelf.remove(name) {
        Ok(()) => Ok(true),
        Err(StoreError::Failed) => Ok(false),
        Err(StoreError::Memory) => Err(AllocError),
    }
}

fn add_name(names: &mut HashSet<Text>, name: &Text) -> Result<(), AllocError>
    ensures { OnOk result ((n : List ℕ) → contains bytes_eq names.new n
        ≡ cond (bytes_eq name.now n) true (contains bytes_eq names.old n)) }
{
    names.insert(name.share()?)?;
    Ok(())
}

/// The names that profiles want.
fn wanted_names(alloc: Global, profiles: &[NamedProfile<'_>]) -> Result<HashSet<Text>, AllocError>
    ensures { IfOk result (λ names. Names names (wants_of profiles.now)) }
{
    let room = profiles.len().saturating_add(profiles.len());
    let mut names = HashSet::with_capacity(alloc, room)?;
    for profile in profiles {
        add_name(&mut names, profile.file_name(Which::Json))?;
        add_name(&mut names, profile.file_name(Which::Dep))?;
    }
    Ok(names)
}

/// Adds the name, where it is an own one and none of these.
fn add_unwanted(gone: &mut Vec<Text>, name: &Text, names: &HashSet<Text>) -> Result<(), AllocError>
    ensures { OnOk result (gone.new.items ≡ gone.old.items
        ++ (if is_own name.now && not (contains bytes_eq names.now name.now) then name.now ∷ []
        else [])) }
{
    if is_own(name.as_str()) && !names.contains(name) {
        gone.push(name.share()?)?;
    }
    Ok(())
}

fn keep(troubles: &mut Vec<Trouble>, trouble: Option<Trouble>) -> Result<(), AllocError>
    ensures { OnOk result (troubles.new.items ≡ troubles.old.items ++ one_or_none trouble) }
{
    if let Some(trouble) = trouble {
        troubles.push(trouble)?;
    }
    Ok(())
}

impl Publisher {
    /// Whether the name is known to hold these bytes.
    fn is_known(&self, name: &Text, bytes: &Bytes) -> bool
        ensures { result ≡ true → Holding bytes.now (get bytes_eq self.now.own name.now) }
    {
        match self.own.get(name) {
            Some(Known::Holds(known)) => known.as_slice() == bytes.as_slice(),
            _ => false,
        }
    }

    /// Nothing is known of the name any more.
    fn forget(&mut self, name: &Text) -> Result<(), AllocError>
        ensures own { OnOk result ((n : List ℕ) → get bytes_eq self.new.own n
            ≡ cond (bytes_eq name.now n) (Some Known.Unread) (get bytes_eq self.old.own n)) }
        ensures most { self.new.most ≡ self.old.most }
    {
        self.own.insert(name.share()?, Known::Unread)?;
        Ok(())
    }

    /// The name is known to hold these bytes.
    fn note(&mut self, name: &Text, bytes: &Bytes) -> Result<(), AllocError>
        ensures own { OnOk result ((n : List ℕ) → get bytes_eq self.new.own n
            ≡ cond (bytes_eq name.now n) (Some (Known.Holds bytes.now))
            (get bytes_eq self.old.own n)) }
        ensures most { self.new.most ≡ self.old.most }
    {
        self.own
            .insert(name.share()?, Known::Holds(bytes.share()?))?;
        Ok(())
    }

    /// The name is known to be absent.
    fn drop_name(&mut self, name: &Text)
        ensures own { (n : List ℕ) → get bytes_eq self.new.own n
            ≡ cond (bytes_eq name.now n) None (get bytes_eq self.old.own n) }
        ensures most { self.new.most ≡ self.old.most }
    {
        self.own.remove(name);
    }

    /// An own name is taken away from the shelf, or the call failed.
    fn remove<H: Shelf>(&mut self, shelf: &mut H, name: &Text) -> Result<bool, AllocError>
        requires open { IsSome (H.opened shelf.old) }
        requires knows { Knows self.old (H.cell shelf.old) }
        ensures came { IfOk result (λ done. Came name.now None done (H.fault_count shelf.old)
            (H.fault_count shelf.new) (H.cell shelf.old) (H.cell shelf.new)) }
        ensures knows { OnOk result (Knows self.new (H.cell shelf.new)) }
        ensures unsettles { OnErr result (AllBut (H.cell shelf.old) name.now (H.cell shelf.new)) }
        ensures later { H.fault_count shelf.old ≤ H.fault_count shelf.new }
        ensures opened { H.opened shelf.new ≡ H.opened shelf.old }
        ensures keys { IfOk result (λ done. (n : List ℕ) → may_stand_in self.new n
            ≡ (if bytes_eq name.now n then not done else may_stand_in self.old n)) }
        ensures most { self.new.most ≡ self.old.most }
        ensures removals { removals_in (H.changes shelf.new)
            ≤ removals_in (H.changes shelf.old) + 1 }
        ensures log { IfOk result
            (λ gone. H.changes shelf.new ≡ done (H.changes shelf.old) (removed gone name.now)) }
    {
        self.forget(name)?;
        let done = remove_name(shelf, name.as_str())?;
        if done {
            self.drop_name(name);
        }
        Ok(done)
    }

    /// The name gets the bytes, or gives the call that failed. What is known to hold them is not read, nor what is known to
    /// be absent.
    fn bring<H: Shelf>(
        &mut self,
        shelf: &mut H,
        name: &Text,
        bytes: &Bytes,
        held: &mut Vec<u8>,
    ) -> Result<Option<Call>, AllocError>
        requires open { IsSome (H.opened shelf.old) }
        requires own { is_own name.now ≡ true }
        requires knows { Knows self.old (H.cell shelf.old) }
        ensures brings { BringsBytes name.now bytes.now (H.fault_count shelf.old)
            (H.fault_count shelf.new) (H.cell shelf.old) (H.cell shelf.new) (H.changes shelf.old)
            (H.changes shelf.new) result }
        ensures knows { OnOk result (Knows self.new (H.cell shelf.new)) }
        ensures opened { H.opened shelf.new ≡ H.opened shelf.old }
        ensures keys { OnOk result ((n : List ℕ) → may_stand_in self.new n
            ≡ (bytes_eq name.now n || may_stand_in self.old n)) }
        ensures most { self.new.most ≡ self.old.most }
    {
        if self.is_known(name, bytes) {
            return Ok(None);
        }
        let may_stand = self.own.contains_key(name);
        self.forget(name)?;
        let failed = bring_name(shelf, name.as_str(), bytes.as_slice(), held, may_stand)?;
        if failed.is_none() {
            self.note(name, bytes)?;
        }
        Ok(failed)
    }

    /// A file of an object gets its bytes, or gives the call that failed.
    fn bring_file<H: Shelf>(
        &mut self,
        shelf: &mut H,
        profile: &NamedProfile<'_>,
        which: Which,
        held: &mut Vec<u8>,
    ) -> Result<Option<Trouble>, AllocError>
        requires open { IsSome (H.opened shelf.old) }
        requires own { is_own (name_of which profile.now.name) ≡ true }
        requires knows { Knows self.old (H.cell shelf.old) }
        ensures ok { IfOk result (λ trouble. BringsFile profile.now.name which
            (bytes_of which profile.now) trouble (H.fault_count shelf.old)
            (H.fault_count shelf.new) (H.cell shelf.old) (H.cell shelf.new)) }
        ensures knows { OnOk result (Knows self.new (H.cell shelf.new)) }
        ensures unsettles { OnErr result (AllBut (H.cell shelf.old)
            (name_of which profile.now.name) (H.cell shelf.new)) }
        ensures later { H.fault_count shelf.old ≤ H.fault_count shelf.new }
        ensures opened { H.opened shelf.new ≡ H.opened shelf.old }
        ensures keys { OnOk result ((n : List ℕ) → may_stand_in self.new n
            ≡ (bytes_eq (name_of which profile.now.name) n || may_stand_in self.old n)) }
        ensures most { self.new.most ≡ self.old.most }
        ensures removals { removals_in (H.changes shelf.new) ≡ removals_in (H.changes shelf.old) }
        ensures log { IfOk result (λ trouble.
            IfSome (H.cell shelf.old (name_of which profile.now.name))
            (LogsPut (name_of which profile.now.name) (bytes_of which profile.now)
            (option_map call_of trouble) (H.changes shelf.old) (H.changes shelf.new))) }
    {
        match self.bring(shelf, profile.file_name(which), profile.bytes(which), held)? {
            Some(call) => Ok(Some(Trouble {
                object: profile.object().share()?,
                which,
                call,
            })),
            None => Ok(None),
        }
    }

    /// Both files of an object get their bytes, or gives the call that failed.
    fn bring_profile<H: Shelf>(
        &mut self,
        shelf: &mut H,
        profile: &NamedProfile<'_>,
        held: &mut Vec<u8>,
    ) -> Result<Option<Trouble>, AllocError>
        requires open { IsSome (H.opened shelf.old) }
        requires proper { proper (wants_of (profile.now ∷ [])) ≡ true }
        requires knows { Knows self.old (H.cell shelf.old) }
        ensures ok { IfOk result (λ trouble. BringsProfile profile.now trouble
            (H.fault_count shelf.old) (H.fault_count shelf.new) (H.cell shelf.old)
            (H.cell shelf.new)) }
        ensures knows { OnOk result (Knows self.new (H.cell shelf.new)) }
        ensures err { OnErr result (Partly profile.now (H.cell shelf.old) (H.cell shelf.new)) }
        ensures later { H.fault_count shelf.old ≤ H.fault_count shelf.new }
        ensures opened { H.opened shelf.new ≡ H.opened shelf.old }
        ensures keys { IfOk result (λ trouble. MayBring profile.now trouble
            (may_stand_in self.old) (may_stand_in self.new)) }
        ensures most { self.new.most ≡ self.old.most }
        ensures removals { removals_in (H.changes shelf.new) ≡ removals_in (H.changes shelf.old) }
        ensures log { IfOk result (λ trouble. Tells (H.cell shelf.old) → H.changes shelf.new
            ≡ done (H.changes shelf.old) (put_of (H.cell shelf.old) profile.now trouble)) }
    {
        if let Some(trouble) = self.bring_file(shelf, profile, Which::Json, held)? {
            return Ok(Some(trouble));
        }
        self.bring_file(shelf, profile, Which::Dep, held)
    }

    /// Each profile's files get their bytes, in the order of the list; calls that fail are added to the troubles.
    fn place<H: Shelf>(
        &mut self,
        alloc: Global,
        shelf: &mut H,
        profiles: &[NamedProfile<'_>],
        troubles: &mut Vec<Trouble>,
    ) -> Result<(), AllocError>
        requires open { IsSome (H.opened shelf.old) }
        requires proper { proper (wants_of profiles.now) ≡ true }
        requires knows { Knows self.old (H.cell shelf.old) }
        ensures ok { OnOk result ((before : ℕ) (start : List ℕ → Cell)
            → let ws = wants_of profiles.now in Placing ws ws troubles.old.items before
            (H.fault_count shelf.old) start (H.cell shelf.old)
            → Placing ws [] troubles.new.items before (H.fault_count shelf.new) start
            (H.cell shelf.new)) }
        ensures knows { OnOk result (Knows self.new (H.cell shelf.new)) }
        ensures err { OnErr result ((before : ℕ) (start : List ℕ → Cell)
            → let ws = wants_of profiles.now in Placing ws ws troubles.old.items before
            (H.fault_count shelf.old) start (H.cell shelf.old)
            → Interrupted ws before (H.fault_count shelf.new) start (H.cell shelf.new)) }
        ensures later { H.fault_count shelf.old ≤ H.fault_count shelf.new }
        ensures opened { H.opened shelf.new ≡ H.opened shelf.old }
        ensures keys { OnOk result ((start : List ℕ → Bool)
            → let ws = wants_of profiles.now in Bringing ws ws troubles.old.items start
            (may_stand_in self.old) → Bringing ws [] troubles.new.items start
            (may_stand_in self.new)) }
        ensures most { self.new.most ≡ self.old.most }
        ensures removals { removals_in (H.changes shelf.new) ≡ removals_in (H.changes shelf.old) }
        ensures log { OnOk result (Tells (H.cell shelf.old) → Writes (H.cell shelf.old) profiles.now
            troubles.old.items troubles.new.items (H.changes shelf.old) (H.changes shelf.new)) }
    {
        let mut held = Vec::new(alloc);
        for profile in profiles {
            let trouble = self.bring_profile(shelf, profile, &mut held)?;
            keep(troubles, trouble)?;
        }
        Ok(())
    }

    /// An own name goes, in the same way.
    fn sweep<H: Shelf>(
        &mut self,
        alloc: Global,
        shelf: &mut H,
        name: &Text,
        troubles: &mut Vec<Trouble>,
    ) -> Result<(), AllocError>
        requires open { IsSome (H.opened shelf.old) }
        requires own { is_own name.now ≡ true }
        requires knows { Knows self.old (H.cell shelf.old) }
        ensures ok { OnOk result (Sweeps name.now troubles.old.items troubles.new.items
            (H.fault_count shelf.old) (H.fault_count shelf.new) (H.cell shelf.old)
            (H.cell shelf.new)) }
        ensures knows { OnOk result (Knows self.new (H.cell shelf.new)) }
        ensures unsettles { OnErr result (AllBut (H.cell shelf.old) name.now (H.cell shelf.new)) }
        ensures later { H.fault_count shelf.old ≤ H.fault_count shelf.new }
        ensures opened { H.opened shelf.new ≡ H.opened shelf.old }
        ensures keys { OnOk result (Drops name.now troubles.old.items troubles.new.items
            (may_stand_in self.old) (may_stand_in self.new)) }
        ensures most { self.new.most ≡ self.old.most }
        ensures removals { removals_in (H.changes shelf.new)
            ≤ removals_in (H.changes shelf.old) + 1 }
        ensures log { OnOk result (Removes (name.now ∷ []) troubles.old.items troubles.new.items
            (H.changes shelf.old) (H.changes shelf.new)) }
    {
        let done = self.remove(shelf, name)?;
        if done {
            return Ok(());
        }
        troubles.push(not_removed(alloc, name.as_str())?)?;
        Ok(())
    }

    /// These names go, in the order of the list; calls that fail are added to the troubles.
    fn clear<H: Shelf>(
        &mut self,
        alloc: Global,
        shelf: &mut H,
        names: &[Text],
        wants: &[NamedProfile<'_>],
        troubles: &mut Vec<Trouble>,
    ) -> Result<(), AllocError>
        requires open { IsSome (H.opened shelf.old) }
        requires going { list_all (goes (wants_of wants.now)) names.now ≡ true }
        requires knows { Knows self.old (H.cell shelf.old) }
        ensures ok { OnOk result ((before : ℕ) (start : List ℕ → Cell)
            → let ws = wants_of wants.now in Clearing ws names.now troubles.old.items before
            (H.fault_count shelf.old) start (H.cell shelf.old)
            → Clearing ws [] troubles.new.items before (H.fault_count shelf.new) start
            (H.cell shelf.new)) }
        ensures knows { OnOk result (Knows self.new (H.cell shelf.new)) }
        ensures err { OnErr result ((before : ℕ) (start : List ℕ → Cell)
            → let ws = wants_of wants.now in Clearing ws names.now troubles.old.items before
            (H.fault_count shelf.old) start (H.cell shelf.old)
            → Interrupted ws before (H.fault_count shelf.new) start (H.cell shelf.new)) }
        ensures later { H.fault_count shelf.old ≤ H.fault_count shelf.new }
        ensures opened { H.opened shelf.new ≡ H.opened shelf.old }
        ensures keys { OnOk result ((start : List ℕ → Bool)
            → let ws = wants_of wants.now in Dropping ws names.now troubles.old.items start
            (may_stand_in self.old) → Dropping ws [] troubles.new.items start
            (may_stand_in self.new)) }
        ensures most { self.new.most ≡ self.old.most }
        ensures removals { removals_in (H.changes shelf.new)
            ≤ removals_in (H.changes shelf.old) + length names.now }
        ensures log { OnOk result (Removes names.now troubles.old.items troubles.new.items
            (H.changes shelf.old) (H.changes shelf.new)) }
    {
        for name in names {
            self.sweep(alloc, shelf, name, troubles)?;
        }
        Ok(())
    }

    /// The own names that may be there and that no profile wants, in byte order, each once.
    fn unwanted(
        &self,
        alloc: Global,
        profiles: &[NamedProfile<'_>],
    ) -> Result<Vec<Text>, AllocError>
        ensures going { IfOk result (λ gone. list_all (goes (wants_of profiles.now)) gone.items
            ≡ true) }
        ensures covers { IfOk result (λ gone. Covers gone.items (wants_of profiles.now) self.now) }
        ensures known { IfOk result (λ gone. (n : List ℕ) → list_any (λ m. bytes_eq m n) gone.items
            ≡ true → may_stand_in self.now n ≡ true) }
        ensures sorted { IfOk result (λ gone. IsSorted (slice_cmp nat_cmp) gone.items) }
        ensures once { IfOk result (λ gone. IsDistinct bytes_eq gone.items) }
    {
        let names = wanted_names(alloc, profiles)?;
        let mut gone = Vec::new(alloc);
        for (name, _known) in &self.own {
            add_unwanted(&mut gone, name, &names)?;
        }
        gone.sort()?;
        Ok(gone)
    }

    /// These names, all those that may be there and that no profile wants, go, and then each profile's files get their
    /// bytes.
    fn replace<H: Shelf>(
        &mut self,
        alloc: Global,
        shelf: &mut H,
        gone: &[Text],
        profiles: &[NamedProfile<'_>],
    ) -> Result<Vec<Trouble>, AllocError>
        requires open { IsSome (H.opened shelf.old) }
        requires proper { proper (wants_of profiles.now) ≡ true }
        requires knows { Knows self.old (H.cell shelf.old) }
        requires going { list_all (goes (wants_of profiles.now)) gone.now ≡ true }
        requires covers { Covers gone.now (wants_of profiles.now) self.old }
        requires known { (n : List ℕ) → list_any (λ m. bytes_eq m n) gone.now ≡ true
            → may_stand_in self.old n ≡ true }
        requires sorted { IsSorted (slice_cmp nat_cmp) gone.now }
        requires once { IsDistinct bytes_eq gone.now }
        ensures ok { IfOk result (λ troubles. Published (wants_of profiles.now)
            (Publication.Done troubles.items) (H.fault_count shelf.old) (H.fault_count shelf.new)
            (H.cell shelf.old) (H.cell shelf.new)) }
        ensures knows { OnOk result (Knows self.new (H.cell shelf.new)) }
        ensures keys { IfOk result (λ troubles. (n : List ℕ) → may_stand_in self.new n
            ≡ stays (wants_of profiles.now) troubles.items (may_stand_in self.old) n) }
        ensures err { OnErr result (Interrupted (wants_of profiles.now) (H.fault_count shelf.old)
            (H.fault_count shelf.new) (H.cell shelf.old) (H.cell shelf.new)) }
        ensures later { H.fault_count shelf.old ≤ H.fault_count shelf.new }
        ensures opened { H.opened shelf.new ≡ H.opened shelf.old }
        ensures most { self.new.most ≡ self.old.most }
        ensures removals { removals_in (H.changes shelf.new)
            ≤ removals_in (H.changes shelf.old) + length gone.now }
        ensures log { IfOk result (λ troubles. Tells (H.cell shelf.old)
            → Logged self.old profiles.now
            troubles.items (H.cell shelf.old) (H.changes shelf.old) (H.changes shelf.new)) }
    {
        let mut troubles = Vec::new(alloc);
        self.clear(alloc, shelf, gone, profiles, &mut troubles)?;
        self.place(alloc, shelf, profiles, &mut troubles)?;
        Ok(troubles)
    }

    /// Publishes profiles with the names of their files.
    fn publish_named<H: Shelf>(
        &mut self,
        alloc: Global,
        shelf: &mut H,
        profiles: &[NamedProfile<'_>],
    ) -> Result<Publication, AllocError>
        requires open { IsSome (H.opened shelf.old) }
        requires proper { proper (wants_of profiles.now) ≡ true }
        requires knows { Knows self.old (H.cell shelf.old) }
        ensures ok { IfOk result (λ p. Published (wants_of profiles.now) p (H.fault_count shelf.old)
            (H.fault_count shelf.new) (H.cell shelf.old) (H.cell shelf.new)) }
        ensures bounded { IfOk result
            (Bounded self.old.most (wants_of profiles.now) (may_stand_in self.old)) }
        ensures within { RemovesWithin self.old.most (H.changes shelf.old) (H.changes shelf.new) }
        ensures knows { OnOk result (Knows self.new (H.cell shelf.new)) }
        ensures keys { IfOk result (λ p. (n : List ℕ) → may_stand_in self.new n
            ≡ may_stand_after (wants_of profiles.now) p (may_stand_in self.old) n) }
        ensures err { OnErr result (InterruptedWithin self.old.most (wants_of profiles.now)
            (may_stand_in self.old) (H.fault_count shelf.old) (H.fault_count shelf.new)
            (H.cell shelf.old) (H.cell shelf.new)) }
        ensures later { H.fault_count shelf.old ≤ H.fault_count shelf.new }
        ensures opened { H.opened shelf.new ≡ H.opened shelf.old }
        ensures most { self.new.most ≡ self.old.most }
        ensures log { IfOk result (λ p. Tells (H.cell shelf.old) → LoggedBy self.old profiles.now p
            (H.cell shelf.old) (H.changes shelf.old) (H.changes shelf.new)) }
    {
        let gone = self.unwanted(alloc, profiles)?;
        if !is_within(self.most, gone.len()) {
            return Ok(Publication::TooManyRemovals(gone.len()));
        }
        let troubles = self.replace(alloc, shelf, &gone, profiles)?;
        Ok(Publication::Done(Seq::from_vec(troubles)))
    }

    /// Publishes profiles: first each own name that no profile wants is removed, in byte order, and then each file
    /// of theirs is read, where nothing is known of it but that it may be there, and put where its bytes differ. It goes
    /// on behind calls that fail, and gives them in the order in which they were made. Where more names were to go than it
    /// may remove, no call is made, and it gives how many.
    pub fn publish<H: Shelf>(
        &mut self,
        alloc: Global,
        shelf: &mut H,
        profiles: &[Profile],
    ) -> Result<Publication, AllocError>
        requires open { IsSome (H.opened shelf.old) }
        requires proper { proper (wants_of profiles.now) ≡ true }
        requires knows { Knows self.old (H.cell shelf.old) }
        ensures ok { IfOk result (λ p. Published (wants_of profiles.now) p (H.fault_count shelf.old)
            (H.fault_count shelf.new) (H.cell shelf.old) (H.cell shelf.new)) }
        ensures bounded { IfOk result
            (Bounded self.old.most (wants_of profiles.now) (may_stand_in self.old)) }
        ensures within { RemovesWithin self.old.most (H.changes shelf.old) (H.changes shelf.new) }
        ensures knows { OnOk result (Knows self.new (H.cell shelf.new)) }
        ensures keys { IfOk result (λ p. (n : List ℕ) → may_stand_in self.new n
            ≡ may_stand_after (wants_of profiles.now) p (may_stand_in self.old) n) }
        ensures err { OnErr result (InterruptedWithin self.old.most (wants_of profiles.now)
            (may_stand_in self.old) (H.fault_count shelf.old) (H.fault_count shelf.new)
            (H.cell shelf.old) (H.cell shelf.new)) }
        ensures later { H.fault_count shelf.old ≤ H.fault_count shelf.new }
        ensures opened { H.opened shelf.new ≡ H.opened shelf.old }
        ensures most { self.new.most ≡ self.old.most }
        ensures log { IfOk result (λ p. Tells (H.cell shelf.old) → LoggedBy self.old profiles.now p
            (H.cell shelf.old) (H.changes shelf.old) (H.changes shelf.new)) }
    {
        let profiles = named(alloc, profiles)?;
        self.publish_named(alloc, shelf, &profiles)
    }

    /// A publisher for a shelf on which these names are. No publication of it removes more names than `most`.
    pub fn new(alloc: Global, names: &[Text], most: Option<u64>) -> Result<Publisher, AllocError>
        ensures knows { IfOk result
            (λ p. (cell : List ℕ → Cell) → Lists names.now cell → Knows p cell) }
        ensures keys { IfOk result (λ p. (n : List ℕ) → may_stand_in p n
            ≡ list_any (λ m. bytes_eq m n) names.now) }
        ensures most { IfOk result (λ p. p.most ≡ most) }
    {
        let mut own = HashMap::with_capacity(alloc, names.len())?;
        for name in names {
            own.insert(name.share()?, Known::Unread)?;
        }
        Ok(Publisher { own, most })
    }
}
