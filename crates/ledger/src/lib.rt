// What keeping means: fresh translation, the ledger of artifacts, and the laws that join them. Definitions and proofs only; the
// manager's contracts cite them.
#![tactic(auto)]
