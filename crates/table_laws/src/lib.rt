// No code: the laws that link the tests on bytes to the definition of a table's answer.
#![tactic(auto)]
