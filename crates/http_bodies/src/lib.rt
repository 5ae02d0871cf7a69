//! The JSON bodies of requests.
#![tactic(auto)]

mod body;
mod fault;
mod multipart;
mod pairs;
mod put;
mod ranges;
mod settings;

pub use fault::BodyFault;
pub use multipart::{UploadBody, read_part, read_upload};
pub use put::{PutBody, read_put};
pub use settings::{read_status, read_tags};
