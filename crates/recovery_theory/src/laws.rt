//! The laws: what each elementary step keeps, and what devices say wherever the logs are cut.

ghost use Rattle.recovery_theory.specs.Pages.{LifeIsOfItsEntry};
ghost use Rattle.recovery_theory.specs.Effect.{StepIsSaid, UpdateIsSaid};
ghost use Rattle.recovery_theory.specs.Chain.{ChainGrows, ChainRedoes};
ghost use Rattle.recovery_theory.specs.Rebuilding.{ChainIsLinked, ChainRebuilds, DevicesDetermine};
ghost use Rattle.recovery_theory.specs.Identifiers.{StandingIsChained};
ghost use Rattle.recovery_theory.specs.Steps.{ArchiveKeepsHistory, BeginKeepsHistory, CompensationKeepsHistory, EndKeepsHistory, ForceKeepsHistory, FormattedIsHistory, FreeKeepsHistory, FreshIsClean, LocksKeepHistory, LossKeepsHistory, MoveKeepsHistory, PassKeepsHistory, PurgeKeepsHistory, StopKeepsHistory, UpdateKeepsHistory, UseKeepsHistory, WriteKeepsHistory};
ghost use Rattle.recovery_theory.specs.Redo.{RedoCounts, RedoKeepsHistory, RedoRecovers};
ghost use Rattle.recovery_theory.specs.Records.{ArchiveKeepsRecords, BeginKeepsRecords, CompensationKeepsRecords, EndOfNothingKeepsRecords, EndOverlaysRecords, ForceKeepsRecords, FormattedHoldsNone, FreeKeepsRecords, LocksKeepRecords, LossKeepsRecords, MoveKeepsRecords, OneSetOfRecords, PassKeepsRecords, PurgeKeepsRecords, RedoKeepsRecords, StandsAtEachCut, StopKeepsRecords, UpdateKeepsRecords, UseKeepsRecords, UseWithLocksKeepsRecords, WhatStandsOpens, WriteKeepsRecords};
ghost use Rattle.recovery_theory.specs.Rules.{CutsOweNoMore, FrontsAreRuled, LeftBothWays, LeftIsLogged, MapOwesNone, OwedIsPaid, OwesOneMore, RuledFromLater, RuledWithOneMore};
ghost use Rattle.recovery_theory.specs.Room.{EndKeepsRoom, ForceKeepsRoom, LoggedKeepsRoom, MoveKeepsRoom, RoomForMapChange, RoomForOneMore, RoomForOwed, SoundAtCuts, StopKeepsRoom};
ghost use Rattle.recovery_theory.specs.Headroom.{EndKeepsRising, ForceKeepsRising, FormattedIsRising, HeadroomAtCuts, LoggedKeepsRising, MoveKeepsRising, PassKeepsRising, StopKeepsRising};
ghost use Rattle.recovery_theory.specs.Outcomes.{StandsForAtEachCut};

/// The words of the theory are those of the layers below.
pub fn law_of_words()
    // A data page has the life that its map entry says, and a map page has one life.
    ensures life { LifeIsOfItsEntry }
    // The step of a record is the change that it says.
    ensures step { StepIsSaid }
    // An update says its change, and is taken back by the change that takes it back.
    ensures update { UpdateIsSaid }
{}

/// The chain of a page: what its logs say of it, however they are read.
pub fn law_of_chains()
    // It goes on with each change that the page's guard logs.
    ensures grows { ChainGrows }
    // Redo over the guard's log gives the recovered image.
    ensures redoes { ChainRedoes }
    // So does any order of the steps of all logs that follows the identifiers.
    ensures rebuilds { ChainRebuilds }
    // Each identifier from the base on is that of exactly one step, and in each log they rise.
    ensures linked { ChainIsLinked }
    // Linked, near, same, lives and the recovered image, said of the set of all log records.
    ensures chained { StandingIsChained }
{}

/// A record that a node appends, together with its change of a page, keeps a history.
pub fn law_of_logged_changes()
    // A transaction begins.
    ensures begin { BeginKeepsHistory }
    // A slot is changed under its lock.
    ensures update { UpdateKeepsHistory }
    // The newest update that is left is taken back.
    ensures compensation { CompensationKeepsHistory }
    // A place of a map page comes into use.
    ensures place_use { UseKeepsHistory }
    // The empty page of a place is freed.
    ensures place_free { FreeKeepsHistory }
{}

/// A record that ends a transaction, appended and forced, settles what is left of it.
pub fn law_of_ended_transactions()
    ensures { EndKeepsHistory }
{}

/// What is stable, and what a stop leaves.
pub fn law_of_stops()
    // More of a log is stable.
    ensures force { ForceKeepsHistory }
    // A node stops, and its log is cut anywhere behind what is stable.
    ensures stop { StopKeepsHistory }
{}

/// Locks of slots of which nothing is left may be taken, and may go.
pub fn law_of_locks()
    ensures { LocksKeepHistory }
{}

/// Pages go to the disk, get lost, and pass from node to node.
pub fn law_of_pages()
    // A page is written once its records are stable.
    ensures write { WriteKeepsHistory }
    // A block is lost.
    ensures loss { LossKeepsHistory }
    // A clean page goes to another node.
    ensures pass { PassKeepsHistory }
    // A page as its life begins is clean.
    ensures fresh { FreshIsClean }
{}

/// What moves between the disk and the vault.
pub fn law_of_the_vault()
    // A clean page is archived.
    ensures archive { ArchiveKeepsHistory }
    // The start of a log moves past records that the disk has.
    ensures move_start { MoveKeepsHistory }
    // Kept records that the archived images cover go.
    ensures purge { PurgeKeepsHistory }
{}

/// Redo of one log over all pages.
pub fn law_of_redo()
    // It gives each page of the log's node its recovered image, and leaves what the others stand for.
    ensures recovers { RedoRecovers }
    // It may be broken off anywhere, with any pages written.
    ensures broken_off { RedoKeepsHistory }
    // It counts no more steps than the log has records.
    ensures counts { RedoCounts }
{}

/// The first state of a store, and what devices leave open.
pub fn law_of_formatted_stores()
    // A formatted store is a history.
    ensures formatted { FormattedIsHistory }
    // The devices determine the images and the settled slots.
    ensures determined { DevicesDetermine }
{}

/// The records by key stay through each step but the end of a transaction.
pub fn law_of_kept_records()
    // A transaction begins.
    ensures begin { BeginKeepsRecords }
    // An update is its transaction's own until that ends.
    ensures update { UpdateKeepsRecords }
    // An update is taken back.
    ensures compensation { CompensationKeepsRecords }
    // A free place comes into use for a group without a page.
    ensures place_use { UseKeepsRecords }
    // Its slots get the locks of the group's records.
    ensures place_use_with_locks { UseWithLocksKeepsRecords }
    // The page of a group without a record is freed.
    ensures place_free { FreeKeepsRecords }
    // More of a log is stable.
    ensures force { ForceKeepsRecords }
    // A node stops.
    ensures stop { StopKeepsRecords }
    // Locks are taken and go.
    ensures locks { LocksKeepRecords }
    // A page is written.
    ensures write { WriteKeepsRecords }
    // A block is lost.
    ensures loss { LossKeepsRecords }
    // A page goes to another node.
    ensures pass { PassKeepsRecords }
    // Redo is done, or broken off.
    ensures redo { RedoKeepsRecords }
    // A page is archived.
    ensures archive { ArchiveKeepsRecords }
    // The start of a log moves.
    ensures move_start { MoveKeepsRecords }
    // Kept records go.
    ensures purge { PurgeKeepsRecords }
{}

/// The forced end of a transaction, and the records by key.
pub fn law_of_committed_records()
    // It overlays them with what is left of the transaction.
    ensures overlays { EndOverlaysRecords }
    // Where nothing is left, as of an abort that has taken all back, they stay.
    ensures stay { EndOfNothingKeepsRecords }
{}

/// What devices and logs stand for.
pub fn law_of_standing_devices()
    // Wherever the logs are cut, the devices stand for the history's records.
    ensures each_cut { StandsAtEachCut }
    // What stands can be opened.
    ensures opens { WhatStandsOpens }
    // Devices stand for no other records.
    ensures one_set { OneSetOfRecords }
    // A formatted store holds no record.
    ensures formatted { FormattedHoldsNone }
{}

/// The rules of a live log, and what they give.
pub fn law_of_ruled_logs()
    // Each front of a log keeps its rules.
    ensures fronts { FrontsAreRuled }
    // One record more that keeps its rule keeps the log's.
    ensures more { RuledWithOneMore }
    // A log that begins later keeps them.
    ensures later { RuledFromLater }
    // What is left of a transaction, read forwards, is found backwards from its last record too.
    ensures both_ways { LeftBothWays }
    // What is left stands in the log.
    ensures logged { LeftIsLogged }
    // Where no transaction ends behind a cut, what is cut off owes no more than it takes.
    ensures owed { CutsOweNoMore }
    // One record more may owe one record more.
    ensures owes { OwesOneMore }
    // A change of a map page owes none.
    ensures owes_none { MapOwesNone }
    // The end of a transaction, and a compensation of its newest update, pay what it owes.
    ensures paid { OwedIsPaid }
{}

/// The logs keep their rules and fit into their rings.
pub fn law_of_room()
    // They do so wherever they are cut.
    ensures at_cuts { SoundAtCuts }
    // Any record takes two places at most.
    ensures one_more { RoomForOneMore }
    // A change of a map page takes one.
    ensures map_change { RoomForMapChange }
    // A record that is owed always has room: so an abort never lacks it.
    ensures owed { RoomForOwed }
    // A record that ends no transaction is appended.
    ensures logged { LoggedKeepsRoom }
    // A transaction ends.
    ensures end { EndKeepsRoom }
    // More of a log is stable.
    ensures force { ForceKeepsRoom }
    // A node stops.
    ensures stop { StopKeepsRoom }
    // The start of a log moves.
    ensures move_start { MoveKeepsRoom }
{}

/// A page's identifier has room to rise by all that may be taken back.
pub fn law_of_headroom()
    // No cut needs more of it than the present.
    ensures at_cuts { HeadroomAtCuts }
    // A record is appended.
    ensures logged { LoggedKeepsRising }
    // A transaction ends.
    ensures end { EndKeepsRising }
    // More of a log is stable.
    ensures force { ForceKeepsRising }
    // A node stops.
    ensures stop { StopKeepsRising }
    // A page goes to another node.
    ensures pass { PassKeepsRising }
    // The start of a log moves.
    ensures move_start { MoveKeepsRising }
    // A formatted store has it.
    ensures formatted { FormattedIsRising }
{}

/// Wherever the logs are cut, and so after every stop, the devices stand for the history's records with
/// all that is asked of them: chains, slots and keys, rules and room of the logs, and headroom.
pub fn law_of_outcomes()
    ensures { StandsForAtEachCut }
{}
