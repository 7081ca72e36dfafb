// The laws of designs, each as a contract.
ghost use Rattle.design_laws.specs.Laws.{SumsAreSums, LessIsLess, EqualIsEqual, SlicesAndJoins, WordsAndNumbers, OperationsInNumbers, WidthsSuffice, StreamsSuffice};

// A sum's bits and its carry are the sum of the numbers.
pub fn sums_are_sums()
    ensures { SumsAreSums }
{}

// The test of bits for less is that of the numbers.
pub fn less_is_less()
    ensures { LessIsLess }
{}

// The test of bits for equal is that of the numbers.
pub fn equal_is_equal()
    ensures { EqualIsEqual }
{}

// A slice is a quotient, and a join a product and a sum.
pub fn slices_and_joins()
    ensures { SlicesAndJoins }
{}

// A word and its number determine each other.
pub fn words_and_numbers()
    ensures { WordsAndNumbers }
{}

// What the other operations show, in numbers.
pub fn operations_in_numbers()
    ensures { OperationsInNumbers }
{}

// Bits past the widths change no expression.
pub fn widths_suffice()
    ensures { WidthsSuffice }
{}

// Bits past the widths change no output, whatever came before.
pub fn streams_suffice()
    ensures { StreamsSuffice }
{}
