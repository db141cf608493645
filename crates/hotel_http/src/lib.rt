//! One HTTP request, one answer. The crate knows no port and no connection.
//!
//! - src: requests reads and judges, and has no books: what is left of a request is a `Request`, or a `Rejection` with
//!   its own status and text. serve asks the books. All answers but a list's text are written from buffers of fixed
//!   size.
//! - specs: Head, Fields, Origins: what an input begins with, and whether it comes from a web page. Routes, Plan, Body,
//!   Form, Tasks, Request: what it asks for, or the first rejection. Status, Answer, AuditAnswer, Serve: the bytes of
//!   answers, and what comes of a request.
//! - src: laws: the limits of a head.
#![tactic(auto)]

mod answer;
mod audit_answer;
mod body;
mod buffer;
mod fields;
mod form;
mod head;
mod laws;
mod origins;
mod plan;
mod rejection;
mod requests;
mod routes;
mod serve;
mod service;
mod status;
mod tasks;

pub use origins::Origins;
pub use routes::{Routes, make_routes};
pub use serve::{Exchange, ServeFault, Served, serve_by, serve_one};
pub use service::Service;
