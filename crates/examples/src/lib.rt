// Listings and books, worked out: theorems apart from `places` and `plain`, as they compute long.
#![tactic(auto)]

ghost use Rattle.examples.specs.Worked.{ListingsWorked, OthersNotListed};
ghost use Rattle.examples.specs.Books.{BooksWorked};

// Theorem: what these rule files list where these texts begin.
pub fn listings_worked()
    ensures { ListingsWorked }
{}

// Theorem: what they do not list.
pub fn others_not_listed()
    ensures { OthersNotListed }
{}

// Theorem: what the plain book of these rule files answers.
pub fn books_worked()
    ensures { BooksWorked }
{}
