ghost use Rattle.std.specs.Prelude.{◌≡◌};
ghost use Rattle.std.specs.List.{list_all};
ghost use Rattle.mm_model.specs.Labels.{is_label_byte, is_label};

fn is_label_byte(byte: u8) -> bool
    ensures { result ≡ is_label_byte byte }
{
    matches!(byte, b'a'..=b'z' | b'A'..=b'Z' | b'0'..=b'9' | b'-' | b'_' | b'.')
}

/// Whether each byte may stand in a label: a letter, a digit, `-`, `_` or `.`.
pub fn are_label_bytes(bytes: &[u8]) -> bool
    ensures { result ≡ list_all is_label_byte bytes.now }
{
    bytes.iter().all(|byte| is_label_byte(*byte))
}

/// Whether bytes have the form of a label: bytes of a label, and at least one.
pub fn is_label(bytes: &[u8]) -> bool
    ensures { result ≡ is_label bytes.now }
{
    !bytes.is_empty() && are_label_bytes(bytes)
}
