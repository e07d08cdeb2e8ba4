// Laws about Booleans and the tests of numbers, all in specs/: no code.
#![tactic(auto)]
