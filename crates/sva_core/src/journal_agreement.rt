//! The headline, of what lies under a lock.

ghost use Rattle.std.specs.Prelude.{ℕ};
ghost use Rattle.sva_core.specs.Journal.{History, IsLegal};
ghost use Rattle.sva_core.specs.JournalHeadline.{JournalsAgree, IsRunning, KeepsItsFrame};

/// The headline, of every legal journal. What lies under a lock is a world to which one leads (`Journaled`), so it holds
/// whenever the lock is free; and no frame of a running use is free.
pub fn headline_of_journals()
    ensures agrees { JournalsAgree }
    ensures uses { (h : History) → IsLegal h → (e u : ℕ) → IsRunning h e u → KeepsItsFrame h e u }
{}
