// What OpenType and document 01 say of the tables: definitions in specs/, computed on small tables in proofs/. The code that answers by them is in `axes`, `store`, `lines` and `widths`.
#![tactic(auto)]
