// The counter profile: messages are judged by the plain rules, then by the end that sends them and the program that they start.
// Definitions and laws; `profile_pdu` reads and writes by it.
#![tactic(auto)]
