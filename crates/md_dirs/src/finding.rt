//! Where the first name of a message is, among names in the order of their bytes.
ghost use Rattle.std.specs.Prelude.{◌≡◌, ◌<◌, ℕ, List, IsTrue, length, nat_lt};
ghost use Rattle.std.specs.FinMap.{is_sorted};
ghost use Rattle.md_dirs.specs.Index.{name_cmp};
ghost use Rattle.md_dirs.specs.Find.{zone, name_at, edge_zone, IsEdge, IsFirstPlace};

use crate::rows::{is_below, is_below_info, is_named};

/// The names of one directory, in the order of their bytes.
pub(crate) trait InOrder {
    /// The names, each with the number of its file.
    ghost rows: { Self → List (List ℕ × ℕ) };

    /// How many names there are.
    fn count(&self) -> usize
        ensures { result ≡ length (rows self.now) };

    /// The name at a position.
    fn name(&self, at: usize) -> &[u8]
        requires { at < length (rows self.now) }
        ensures { result.now ≡ name_at (rows self.now) at };
}

/// Where names of a message begin among others.
#[derive(Clone, Copy)]
pub(crate) enum Edge {
    /// At the unique name itself.
    Name,
    /// At the unique name and a colon.
    Info,
}

// Whether a name is below an edge of a unique name.
fn is_before(name: &[u8], unique: &[u8], edge: Edge) -> bool
    ensures { result ≡ nat_lt (zone unique.now name.now) (edge_zone edge) }
{
    match edge {
        Edge::Name => is_below(name, unique),
        Edge::Info => is_below_info(name, unique),
    }
}

/// Where the names begin that are not below an edge of a unique name, by halving.
pub(crate) fn edge_place<N: InOrder>(names: &N, unique: &[u8], edge: Edge) -> usize
    requires { IsTrue (is_sorted name_cmp (N.rows names.now)) }
    ensures { IsEdge (N.rows names.now) unique.now (edge_zone edge) result }
{
    let mut low = 0;
    let mut high = names.count();
    while low < high {
        let middle = low + (high - low) / 2;
        if is_before(names.name(middle), unique, edge) {
            low = middle + 1;
        } else {
            high = middle;
        }
    }
    low
}

/// Where the first name is that is a unique name, or a unique name, a colon and more, if there is one.
pub(crate) fn first_place<N: InOrder>(names: &N, unique: &[u8]) -> usize
    requires { IsTrue (is_sorted name_cmp (N.rows names.now)) }
    ensures { IsFirstPlace (N.rows names.now) unique.now result }
{
    let at = edge_place(names, unique, Edge::Name);
    if at < names.count() && is_named(names.name(at), unique) {
        return at;
    }
    edge_place(names, unique, Edge::Info)
}
