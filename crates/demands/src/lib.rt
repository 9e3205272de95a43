// No code: what the auditor is handed, and its proofs.
#![tactic(auto)]
