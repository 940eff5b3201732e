// Theorems of the script writer, and no code: request 1's round trips (specs/RoundTrips).
#![tactic(auto)]
