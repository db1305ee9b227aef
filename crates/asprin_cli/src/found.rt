// What is listed.
use small_front::Shown;
use small_optima::Optima;

/// The optimal answer sets of some texts, and which of their atoms are shown.
#[derive(Drop)]
pub struct Found {
    /// The optimal answer sets.
    pub optima: Optima,
    /// Which atoms are shown.
    pub shown: Shown,
}
