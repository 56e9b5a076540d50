// Worked cases: what the library answers on small graphs.
#![tactic(auto)]

#[cfg(test)]
mod tests;
