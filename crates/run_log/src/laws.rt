//! What follows from the definitions of a log's text.
ghost use Rattle.std.specs.Prelude.{◌≡◌, List, ℕ, All, map};
ghost use Rattle.run_log.specs.declared.entry.LogEntry.{LogEntry};
ghost use Rattle.run_log.specs.Texts.{Line, entry_of, log_text};
ghost use Rattle.run_log.specs.Readings.{Fits, IsLog, IsBadLine};

/// A text is that of one list of entries at most.
pub fn a_text_has_one_list_of_entries()
    ensures { (bytes : List ℕ) (one other : List LogEntry) → IsLog bytes one → IsLog bytes other → one ≡ other }
{}

/// A text with a bad line is that of no list of entries.
pub fn a_bad_line_is_in_no_log()
    ensures { (bytes : List ℕ) (number : ℕ) (entries : List LogEntry) → IsBadLine bytes number → IsLog bytes entries → ⊥ }
{}

/// The text of lines whose numbers fit their fields is that of these entries.
pub fn noted_lines_read_back()
    ensures { (lines : List Line) → All Fits (map entry_of lines) → IsLog (log_text lines) (map entry_of lines) }
{}
