/// An added instance by numbers: what stands for its variables, and its terms.
#[derive(Drop)]
pub(crate) struct Instance {
    pub(crate) subst: Vec<usize>,
    pub(crate) terms: Vec<usize>,
}
