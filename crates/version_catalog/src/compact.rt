//! The compactor puts one layer in place of those that a version has of a stack.
use crate::turns::install_turn;
use crate::whole::whole;
use crate::{Catalogue, CatalogueState, Compactor, Install, Pinned, StackId};
use shard_index::{ShardLayer, Version};
use std::alloc::AllocError;
use std::sync::{Arc, Wait};
use twin_list::Half;

impl Catalogue {
    ghost use Rattle.std.specs.Prelude.{◌≡◌, ◌+◌, ◌^◌, ◌<◌, ◌≤◌, List, length, ◌++◌, ◌∷◌, [], Some, IfOk, OnOk, OnErr};
    ghost use mathlib.Core.List.{IsPrefix};
    ghost use Rattle.shard_index.specs.Places.{IsStack};
    ghost use Rattle.twin_list.specs.Halves.{IsHalfOf, half_list};
    ghost use Rattle.version_catalog.specs.Installs.{install_of, IsLayered};
    ghost use Rattle.version_catalog.specs.Seats.{settings_of, compactor_journal, compactor_installs, compactor_turns, IsCompactorOf, IsVersionOf};
    ghost use Rattle.version_catalog.specs.States.{half_in, StateStands, IsTold};
    ghost use Rattle.twin_list.specs.declared.half.Half.{Half};
    ghost use Rattle.version_catalog.specs.Turns.{IsBase};
    ghost use Rattle.uni_table.specs.declared.command.Command.{Command};
    ghost use Rattle.version_catalog.specs.declared.install.Install.{Install};

    /// Puts one layer in place of those that a stack has at a pin. It merges the layers of that replica of the
    /// shard which has the fewest then, outside any turn; where that is one layer alone, it is shared. Ok is
    /// the number of publishes at the pin. It takes two turns at most.
    pub fn compact<R: Wait>(
        &self,
        rt: &R,
        compactor: &mut Compactor,
        vertical: u16,
        shard: u32,
        replica: u32,
    ) -> Result<u64, AllocError>
        requires of { IsCompactorOf self.now compactor.old }
        requires few { compactor_turns compactor.old + 2 ≤ 2 ^ 56 }
        requires stack { IsStack (settings_of self.now).schema vertical shard replica }
        ensures of { IsCompactorOf self.now compactor.new }
        ensures turns { compactor_turns compactor.new ≤ compactor_turns compactor.old + 2 }
        ensures worked { OnOk result (compactor_turns compactor.new ≡ compactor_turns compactor.old + 2) }
        ensures later { IsPrefix (compactor_journal compactor.old) (compactor_journal compactor.new) }
        ensures installed { IfOk result (λ covers. compactor_installs compactor.new ≡ compactor_installs compactor.old ++ install_of vertical shard replica covers ∷ []) }
        ensures kept { OnErr result (compactor_installs compactor.new ≡ compactor_installs compactor.old) }
        ensures least { IfOk result (λ covers. length (compactor_journal compactor.old) ≤ covers) }
        ensures most { IfOk result (λ covers. covers ≤ length (compactor_journal compactor.new)) }
    {
        let pinned = self.pin(rt, &mut compactor.seat)?;
        self.compact_at(rt, compactor, pinned.version(), vertical, shard, replica)
    }

    // Puts one layer in place of those that a stack has in a pinned version. Ok is how many publishes that version
    // is after.
    fn compact_at<R: Wait>(
        &self,
        rt: &R,
        compactor: &mut Compactor,
        version: &Version,
        vertical: u16,
        shard: u32,
        replica: u32,
    ) -> Result<u64, AllocError>
        requires of { IsCompactorOf self.now compactor.old }
        requires few { compactor_turns compactor.old < 2 ^ 56 }
        requires version { IsVersionOf (settings_of self.now) (compactor_journal compactor.old) version.now }
        requires stack { IsStack (settings_of self.now).schema vertical shard replica }
        ensures of { IsCompactorOf self.now compactor.new }
        ensures turns { compactor_turns compactor.new ≤ compactor_turns compactor.old + 1 }
        ensures worked { OnOk result (compactor_turns compactor.new ≡ compactor_turns compactor.old + 1) }
        ensures later { IsPrefix (compactor_journal compactor.old) (compactor_journal compactor.new) }
        ensures covers { IfOk result (λ covers. covers ≡ version.now.publishes) }
        ensures installed { IfOk result (λ covers. compactor_installs compactor.new ≡ compactor_installs compactor.old ++ install_of vertical shard replica covers ∷ []) }
        ensures kept { OnErr result (compactor_installs compactor.new ≡ compactor_installs compactor.old) }
    {
        let covers = version.publishes();
        let base = whole(self.alloc, version, vertical, shard, replica)?;
        self.install(rt, compactor, vertical, shard, replica, covers, base)?;
        Ok(covers)
    }

    // Installs in a turn.
    pub(crate) fn install<R: Wait>(
        &self,
        rt: &R,
        compactor: &mut Compactor,
        vertical: u16,
        shard: u32,
        replica: u32,
        covers: u64,
        base: ShardLayer,
    ) -> Result<(), AllocError>
        requires of { IsCompactorOf self.now compactor.old }
        requires few { compactor_turns compactor.old < 2 ^ 56 }
        requires base { IsBase (settings_of self.now).schema (compactor_journal compactor.old) vertical shard replica covers base }
        ensures of { IsCompactorOf self.now compactor.new }
        ensures turns { compactor_turns compactor.new ≡ compactor_turns compactor.old + 1 }
        ensures later { IsPrefix (compactor_journal compactor.old) (compactor_journal compactor.new) }
        ensures installed { OnOk result (compactor_installs compactor.new ≡ compactor_installs compactor.old ++ install_of vertical shard replica covers ∷ []) }
        ensures kept { OnErr result (compactor_installs compactor.new ≡ compactor_installs compactor.old) }
    {
        let mut turn = self.lock.enter(rt, &mut compactor.seat);
        let installed = self.install_in(
            &mut compactor.half,
            &mut turn.value,
            vertical,
            shard,
            replica,
            covers,
            base,
        );
        self.lock.leave(&mut compactor.seat, turn);
        installed
    }

    // Installs in a value, and adds that to the list of installs.
    fn install_in(
        &self,
        mine: &mut Half<Install>,
        state: &mut CatalogueState,
        vertical: u16,
        shard: u32,
        replica: u32,
        covers: u64,
        base: ShardLayer,
    ) -> Result<(), AllocError>
        requires mine { IsHalfOf self.now.installs mine.old }
        requires told { IsTold state.old self.now.settings }
        requires base { (journal : List (List Command)) × StateStands state.old self.now.settings journal × IsBase self.now.settings.schema journal vertical shard replica covers base }
        ensures mine { IsHalfOf self.now.installs mine.new }
        ensures told { IsTold state.new self.now.settings }
        ensures keeps { (journal : List (List Command)) → StateStands state.old self.now.settings journal → IsBase self.now.settings.schema journal vertical shard replica covers base → StateStands state.new self.now.settings journal }
        ensures installed { OnOk result (half_list mine.new ≡ half_list mine.old ++ install_of vertical shard replica covers ∷ []) }
        ensures kept { OnErr result (half_list mine.new ≡ half_list mine.old) }
    {
        install_turn(self.alloc, state, vertical, shard, replica, covers, base)?;
        let stack = StackId {
            vertical,
            shard,
            replica,
        };
        self.tell(mine, state, &Install { stack, covers });
        Ok(())
    }

    /// The newest version, as the compactor pins it: the list of its installs tells how many layers each stack has
    /// there. It costs a turn and a shared pointer.
    pub fn pin_told<R: Wait>(&self, rt: &R, compactor: &mut Compactor) -> Result<Pinned, AllocError>
        requires of { IsCompactorOf self.now compactor.old }
        requires few { compactor_turns compactor.old < 2 ^ 56 }
        ensures of { IsCompactorOf self.now compactor.new }
        ensures turns { compactor_turns compactor.new ≡ compactor_turns compactor.old + 1 }
        ensures later { IsPrefix (compactor_journal compactor.old) (compactor_journal compactor.new) }
        ensures kept { compactor_installs compactor.new ≡ compactor_installs compactor.old }
        ensures is { IfOk result (IsVersionOf (settings_of self.now) (compactor_journal compactor.new)) }
        ensures layers { IfOk result (IsLayered (settings_of self.now).schema (compactor_installs compactor.new) (length (compactor_journal compactor.new))) }
    {
        let mut turn = self.lock.enter(rt, &mut compactor.seat);
        self.compare(&mut compactor.half, &mut turn.value);
        let version = Arc::try_clone(&turn.value.version);
        self.lock.leave(&mut compactor.seat, turn);
        Ok(Pinned::of(version?))
    }

    // Compares the list of installs with what the value has of it, by the other half.
    fn compare(&self, mine: &mut Half<Install>, state: &mut CatalogueState)
        requires mine { IsHalfOf self.now.installs mine.old }
        requires other { (half : Half Install) × (half_in state.old ≡ Some half) × IsHalfOf self.now.installs half }
        ensures mine { IsHalfOf self.now.installs mine.new }
        ensures same { (half : Half Install) → half_in state.old ≡ Some half → half_list half ≡ half_list mine.old }
        ensures kept { half_list mine.new ≡ half_list mine.old }
        ensures other { (half : Half Install) × (state.new ≡ record state.old { half = Some half }) × IsHalfOf self.now.installs half × (half_list half ≡ half_list mine.old) }
    {
        let other = state.half.take().unwrap();
        state.half = Some(self.installs.compare(mine, other));
    }

    // Adds an install to the list, of which the value has the other half.
    fn tell(&self, mine: &mut Half<Install>, state: &mut CatalogueState, install: &Install)
        requires mine { IsHalfOf self.now.installs mine.old }
        requires other { (half : Half Install) × (half_in state.old ≡ Some half) × IsHalfOf self.now.installs half }
        ensures mine { IsHalfOf self.now.installs mine.new }
        ensures same { (half : Half Install) → half_in state.old ≡ Some half → half_list half ≡ half_list mine.old }
        ensures told { half_list mine.new ≡ half_list mine.old ++ install.now ∷ [] }
        ensures other { (half : Half Install) × (state.new ≡ record state.old { half = Some half }) × IsHalfOf self.now.installs half × (half_list half ≡ half_list mine.old ++ install.now ∷ []) }
    {
        let other = state.half.take().unwrap();
        state.half = Some(self.installs.add(mine, other, install));
    }
}
