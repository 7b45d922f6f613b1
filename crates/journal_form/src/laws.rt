//! Texts of journals and what is read from them: one text for one journal.

ghost use Rattle.std.specs.Prelude.{◌≡◌, ℕ, List};
ghost use Rattle.ring_net.specs.declared.entry.JournalEntry.{JournalEntry};
ghost use Rattle.journal_form.specs.Journals.{journal_lines, journal_text};
ghost use Rattle.journal_form.specs.Reading.{AreEntries, AreLinesOf, Divides, IsAtFault};

/// What was written reads back, whatever lines the input has: the text divides into the input and the
/// lines behind it, and journals that differ in their input or in an entry have different texts.
pub fn journals_read_back()
    ensures divides { (input : List ℕ) (entries : List JournalEntry) → AreEntries entries
        → Divides (journal_text input entries) input (journal_lines entries) }
    ensures different { (one other : List ℕ) (ones others : List JournalEntry) → AreEntries ones → AreEntries others
        → journal_text one ones ≡ journal_text other others → (one ≡ other) × (ones ≡ others) }
{}

/// A text divides in one way at most. What stands behind the dividing line are the lines of one list of
/// entries at most, and no line of these is at fault. Of any other text one line is the first at fault.
pub fn a_text_is_read_in_one_way()
    ensures divided { (text input rest input' rest' : List ℕ) → Divides text input rest → Divides text input' rest'
        → (input ≡ input') × (rest ≡ rest') }
    ensures entries { (rest : List ℕ) (ones others : List JournalEntry) → AreLinesOf ones rest → AreLinesOf others rest → ones ≡ others }
    ensures sound { (rest : List ℕ) (entries : List JournalEntry) (i : ℕ) → AreLinesOf entries rest → ¬ IsAtFault rest i }
    ensures fault { (rest : List ℕ) (i j : ℕ) → IsAtFault rest i → IsAtFault rest j → i ≡ j }
{}
