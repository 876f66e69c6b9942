//! The methods of RTSP that the server speaks, what each needs of its request, and why a request
//! is refused (RFC 2326 sections 7.1.1, 10 and 12).
#![tactic(auto)]

mod methods;
mod option_headers;
mod refusals;
mod topics;

pub use methods::{
    FilmNeed, METHODS, Method, MethodRow, NAME_PARTS, SessionNeed, StateNeed, listed_names,
    read_method, row_of,
};
pub use option_headers::{option_of, required_options};
pub use refusals::Refusal;
pub use topics::{Topic, read_topic};

#[cfg(test)]
mod tests;
