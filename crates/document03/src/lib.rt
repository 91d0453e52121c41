// Document 03's statements, word for word but that its structs `Mended`, `Report` and `Tally` became their numbers or the library's own types, as the files of statements and the section
// "Document 03" of docs/DECISIONS.md say one by one; and that they follow from those of this library. There is no code here: see proofs/.
#![tactic(auto)]
