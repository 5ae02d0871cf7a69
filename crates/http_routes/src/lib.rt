//! Routes: which resource the target of a request names, and the key that a part of a path spells.
#![tactic(auto)]

mod keys;
mod laws;
mod route;
mod routes;

pub use keys::read_key;
pub use laws::one_route;
pub use route::Route;
pub use routes::Routes;
