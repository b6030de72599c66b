// The fetcher: which key is asked of which peer, and what comes of it.
#![tactic(auto)]

mod fetcher;

pub use fetcher::Fetcher;
