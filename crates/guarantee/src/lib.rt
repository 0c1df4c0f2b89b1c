#![tactic(auto)]

// What holds of every run of a station's calls: definitions and theorems, which the call that performs a run promises.
