//! The rows of worksheets, by subject.

mod blank;
mod derived;
mod distinct;
mod fitting;
mod further;
mod placed;
mod refused;
mod together;
mod typed;

pub use blank::BLANK;
pub use derived::DERIVED;
pub use distinct::DISTINCT;
pub use fitting::FITTING;
pub use further::FURTHER;
pub use placed::PLACED;
pub use refused::REFUSED;
pub use together::TOGETHER;
pub use typed::TYPED;

/// Modus ponens.
pub const MODUS_PONENS: &str = "h1::r.1 |- ph
h2::r.2 |- ( ph -> ps )
qed:1,2:ax-mp |- ps
";

/// The steps of the first example of the book.
pub const DEMO_STEPS: &str = "1::a2 |- ( t + 0 ) = t
2::a1 |- ( ( t + 0 ) = t -> ( ( t + 0 ) = t -> t = t ) )
3:1,2:mp |- ( ( t + 0 ) = t -> t = t )
qed:1,3:mp |- t = t
";

/// Its compressed proof.
pub const DEMO_PROOF: &str = "$= ( tze tpl weq a2 wim a1 mp ) ABCZADZAADZAEZJJKFLIAAGHH $.
";

/// Its normal proof.
pub const DEMO_LABELS: &str =
    "$= tt tze tpl tt weq tt tt weq tt a2 tt tze tpl tt weq tt tze tpl tt weq tt tt weq wim tt a2 tt tze tpl tt tt a1 mp mp $.
";

/// The report on it.
pub const DEMO_REPORT: &str = "1 fits a2
2 fits a1
3 fits mp
qed fits mp
finished
";

/// The steps of the identity.
pub const IDENTITY_STEPS: &str = "1::ax-1 |- ( ph -> ( ph -> ph ) )
2::ax-1 |- ( ph -> ( ( ph -> ph ) -> ph ) )
3::ax-2 |- ( ( ph -> ( ( ph -> ph ) -> ph ) ) -> ( ( ph -> ( ph -> ph ) ) -> ( ph -> ph ) ) )
4:2,3:ax-mp |- ( ( ph -> ( ph -> ph ) ) -> ( ph -> ph ) )
qed:1,4:ax-mp |- ( ph -> ph )
";
