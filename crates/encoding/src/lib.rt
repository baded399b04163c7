// A case written as bytes, and what is known of the bytes that read: definitions in specs/, laws in proofs/. No functions.
#![tactic(auto)]
