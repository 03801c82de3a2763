ghost use Rattle.std.specs.Prelude.{◌≡◌, ◌↔◌, IsTrue, Some, None, if◌then◌else◌};
ghost use Rattle.std.specs.List.{list_all};
ghost use Rattle.std.specs.Str.Parse.{digits_value};
ghost use Rattle.command_line.specs.Lines.{is_digit, is_number};

/// Whether each byte is a decimal digit.
fn all_digits(bytes: &[u8]) -> bool
    ensures { result ≡ list_all is_digit bytes.now }
{
    bytes.iter().all(|byte| 48 <= *byte && *byte <= 57)
}

/// The number that one to nineteen decimal digits write, none for any other text.
pub(crate) fn number(text: &str) -> Option<u64>
    ensures { result ≡ (if is_number text.now then Some (digits_value 10 text.now) else None) }
{
    if text.len() >= 20 || !all_digits(text.as_bytes()) {
        return None;
    }
    text.parse::<u64>().ok()
}
