//! What a server answers.

use crate::origins::Origins;
use crate::routes::Routes;

/// What a server answers: whose requests, and by which routes.
#[derive(Clone, Copy)]
pub struct Service<'r> {
    pub origins: Origins,
    pub routes: &'r Routes,
}
