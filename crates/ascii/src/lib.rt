// Texts as bytes, for the definitions of crates that read or write text: quoted texts (specs/Ascii.antt) and decimal numbers (specs/Decimal.antt). There is
// no code here.
#![tactic(auto)]
