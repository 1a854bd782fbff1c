//! How many there are of what was looked for.

/// What a search found that goes on until a second one.
#[derive(Drop)]
pub enum Found<T> {
    None,
    One(T),
    /// Two or more.
    Many,
}
