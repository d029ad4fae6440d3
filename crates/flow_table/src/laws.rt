//! Laws of the definitions: contracts of functions that do nothing. A call in a body names a law that the proof stands on.

ghost use Rattle.std.specs.Prelude.{◌≡◌, ℕ, List, None, Some};
ghost use Rattle.of10_match.specs.declared.header.Header.{Header};
ghost use Rattle.flow_table.specs.Best.{IsBest, TakesAt, best_place};
ghost use Rattle.flow_table.specs.Entry.{counted};
ghost use Rattle.listed.specs.Lists.{changed_at};
ghost use Rattle.flow_table.specs.declared.entry.Entry.{Entry};

/// The best entry is the one that no other entry beats, and there is one exactly where some entry takes the packet.
pub fn the_best_entry_is_unbeaten()
    ensures best { (entries : List Entry) (port : ℕ) (header : Header) (place : ℕ) → best_place entries port header ≡ Some place
        → (entry : Entry) × IsBest entries port header place entry }
    ensures only { (entries : List Entry) (port : ℕ) (header : Header) (place : ℕ) (entry : Entry) → IsBest entries port header place entry
        → best_place entries port header ≡ Some place }
    ensures none { (entries : List Entry) (port : ℕ) (header : Header) (place : ℕ) (entry : Entry) → best_place entries port header ≡ None
        → ¬ TakesAt entries port header place entry }
{
    of10_match::laws::tests_mean_what_matches_take();
}

/// Counting an entry changes no packet's best entry.
pub fn counting_changes_no_best_entry()
    ensures { (entries : List Entry) (place now port : ℕ) (header : Header)
        → best_place (changed_at place (counted now) entries) port header ≡ best_place entries port header }
{}
