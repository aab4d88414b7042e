//! What neither data nor a script can show of `mt_adapters`: calls that no program makes, and readers, writers and clocks that fail.
#![tactic(auto)]

#[cfg(test)]
mod tests;
