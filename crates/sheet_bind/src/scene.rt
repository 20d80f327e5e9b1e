use crate::setting::Setting;
use mm_base::Kinds;
use mm_database::Database;

/// What the steps of a worksheet are judged over.
#[derive(Clone, Copy)]
pub struct Scene<'d, 'k, 's, 't> {
    pub db: &'d Database,
    pub kinds: &'k Kinds,
    /// What is known of the theorem's place.
    pub setting: &'s Setting,
    /// The theorem's name.
    pub theorem: &'t [u8],
}
