// Requests and responses as C has them: flat structs of numbers, and as words.
#![tactic(auto)]

mod flat_requests; // flat_requests.rt: requests
mod flat_responses; // flat_responses.rt: responses

pub use flat_requests::{
    FIELDS, FlatRequest, REQUEST, flat_request, request_in, request_of, request_values,
    request_words,
};
pub use flat_responses::{
    AMOUNTS, FlatResponse, RESPONSE, flat_response, response_in, response_of, response_values,
    response_words,
};
