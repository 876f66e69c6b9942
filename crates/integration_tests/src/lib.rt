//! Tests across crates: sessions and connections by scripts of complete requests, replies and
//! frames, failing links, long films, the largest texts, and a film that is served and watched.
//!
//! Each test is a script, as data, that one reader of its kind runs; so a row more costs no proof.
//! Nothing here is public.
#![tactic(auto)]

#[cfg(test)]
mod connections;
#[cfg(test)]
mod films;
#[cfg(test)]
mod link_scripts;
#[cfg(test)]
mod long_films;
#[cfg(test)]
mod script_text;
#[cfg(test)]
mod session_plays;
#[cfg(test)]
mod session_scripts;
#[cfg(test)]
mod sessions;
#[cfg(test)]
mod text_limits;
#[cfg(test)]
mod watch_client;
