// The lines of a text.
ghost use Rattle.std.specs.Prelude.{◌≡◌};
ghost use Rattle.label_text.specs.Lines.{is_header, is_mixed, trimmed};

// A line without the carriage return before its newline.
pub(crate) fn trimmed(line: &[u8]) -> &[u8]
    ensures { result.now ≡ trimmed line.now }
{
    line.strip_suffix(b"\r").unwrap_or(line)
}

// A line is a header.
pub(crate) fn is_header(line: &[u8]) -> bool
    ensures { result ≡ is_header line.now }
{
    line.starts_with(b">")
}

// A header's first byte stands somewhere, but not at the beginning.
pub(crate) fn is_mixed(text: &[u8]) -> bool
    ensures { result ≡ is_mixed text.now }
{
    !is_header(text) && text.contains(&b'>')
}
