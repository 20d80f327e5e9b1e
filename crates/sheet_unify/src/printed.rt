use mm_base::Bytes;
use sheet_text::Sheet;

/// A written worksheet as it is printed.
#[derive(Drop)]
pub struct Printed {
    pub sheet: Sheet,
    /// Its proof; none where it is not finished.
    pub proof: Option<Bytes>,
    pub text: Bytes,
}
