/// One for each CPU, in order.
#[derive(Drop)]
pub(crate) struct Four<T> {
    pub(crate) first: T,
    pub(crate) second: T,
    pub(crate) third: T,
    pub(crate) fourth: T,
}
